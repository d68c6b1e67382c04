//! The watch over a description's file.

ghost use Rattle.std.specs.Prelude.{◌≡◌, ◌≢◌, ◌<◌, ◌≤◌, ◌⊎◌, IfOk, IfSome, IfNone, IsTrue, None, true, false};
ghost use Rattle.std.specs.Duration.{as_nanos};
ghost use Rattle.std.specs.Time.{instant_nanos};
ghost use Rattle.ads_outside.specs.Rose.{raised};
ghost use Rattle.ads_edge.specs.Settled.{first_of, found_since, has_stood, is_early, is_given, was_found};
ghost use Rattle.ads_edge.specs.TickClock.{later_than};

use crate::WatchPlan;
use crate::found::Found;
use crate::real_files::read_all;
use crate::tick_clock::later;
use crate::used_up::{are_used_up, kept_descriptor};
use ads_base::{NoMemory, Octets};
use ads_outside::Got;
use std::alloc::Global;
use std::fs;
use std::io::Read;
use std::os::fd::OwnedFd;
use std::rt::Files as SystemFiles;
use std::time::{Duration, Instant};

/// The seconds between two readings.
const BETWEEN_SECS: u64 = 1;

/// A file that is read again each second, and the bytes that it held last.
#[derive(Drop)]
pub(crate) struct DescriptionWatch {
    pub(crate) name: String,
    pub(crate) last: Octets,
    pub(crate) due: Instant,
    // How many seconds other bytes have to stand before they are given.
    pub(crate) settle: u32,
    // Other bytes than last that the file was found to hold, where they are not given yet.
    pub(crate) found: Option<Found>,
    // How many readings failed, found too many bytes, or lacked memory.
    pub(crate) failed: u64,
    // Given up for a reading where no other descriptor is left.
    pub(crate) spare: Option<OwnedFd>,
}

impl DescriptionWatch {
    /// A watch over the file of this name, while these bytes are served.
    pub(crate) fn new(
        alloc: Global,
        plan: WatchPlan,
        name: &str,
        first: &[u8],
        now: Instant,
    ) -> Result<DescriptionWatch, NoMemory>
        ensures last { IfOk result (λ watch. watch.last ≡ first_of plan.anew first.now) }
        ensures settle { IfOk result (λ watch. (watch.settle ≡ plan.settle) × (watch.found ≡ None)) }
        ensures due { IfOk result (λ watch. instant_nanos watch.due ≡ later_than (instant_nanos now) 1_000_000_000) }
    {
        let last = if plan.anew { &[] } else { first };
        Ok(DescriptionWatch {
            name: String::from_str(alloc, name)?,
            last: Octets::copy_of(alloc, last)?,
            due: later(now, Duration::from_secs(BETWEEN_SECS)),
            settle: plan.settle,
            found: None,
            failed: 0,
            spare: kept_descriptor(),
        })
    }

    /// What the file holds, where a second has passed and it holds other bytes than last, which have stood long enough. A reading
    /// that fails, is too long or lacks memory is passed over and counted, and what was found before is forgotten.
    pub(crate) fn changed<R: SystemFiles>(
        &mut self,
        alloc: Global,
        rt: &R,
        now: Instant,
        buffer: &mut [u8],
    ) -> Option<Octets>
        ensures early { IsTrue (is_early (instant_nanos self.old.due) (instant_nanos now)) → (result ≡ None) × (self.new ≡ self.old) }
        ensures due { is_early (instant_nanos self.old.due) (instant_nanos now) ≡ false
            → instant_nanos self.new.due ≡ later_than (instant_nanos now) 1_000_000_000 }
        ensures other { IfSome result (λ bytes. bytes ≢ self.old.last) }
        ensures stood { IfSome result (λ bytes. IsTrue (has_stood self.old.settle (instant_nanos now) bytes self.old.found)) }
        ensures given { IfSome result (λ bytes. self.new.last ≡ bytes) }
        ensures kept { IfNone result (self.new.last ≡ self.old.last) }
        ensures name { self.new.name ≡ self.old.name }
        ensures settle { self.new.settle ≡ self.old.settle }
        ensures counted { (self.new.failed ≡ self.old.failed) ⊎ (self.new.failed ≡ raised self.old.failed) }
    {
        if self.is_early(now) {
            return None;
        }
        self.due = later(now, Duration::from_secs(BETWEEN_SECS));
        match self.read(alloc, rt, buffer) {
            Some(bytes) => self.take(alloc, bytes, now),
            None => {
                self.failed = self.failed.saturating_add(1);
                self.found = None;
                None
            }
        }
    }

    // Whether the next reading is still to come.
    fn is_early(&self, now: Instant) -> bool
        ensures { result ≡ is_early (instant_nanos self.now.due) (instant_nanos now) }
    {
        0 < self.due.duration_since(now).as_nanos()
    }

    // Takes the bytes that the file holds now: they are given, or noted where they are others than last.
    fn take(&mut self, alloc: Global, bytes: Octets, now: Instant) -> Option<Octets>
        ensures given { IfSome result (λ given. (given ≡ bytes) × (self.new.last ≡ bytes)) }
        ensures other { IfSome result (λ given. given ≢ self.old.last) }
        ensures stood { IfSome result (λ given. IsTrue (has_stood self.old.settle (instant_nanos now) given self.old.found)) }
        ensures same { self.new ≡ record self.old { last = self.new.last; found = self.new.found } }
        ensures kept { IfNone result (self.new.last ≡ self.old.last) }
    {
        if self.gives(bytes.as_slice(), now) {
            return self.give(alloc, bytes);
        }
        self.note(bytes, now);
        None
    }

    // Whether bytes that the file holds now are given.
    fn gives(&self, bytes: &[u8], now: Instant) -> bool
        ensures { result ≡ is_given self.now.settle (instant_nanos now) self.now.last bytes.now self.now.found }
    {
        bytes != self.last.as_slice() && self.have_stood(bytes, now)
    }

    fn have_stood(&self, bytes: &[u8], now: Instant) -> bool
        ensures { result ≡ has_stood self.now.settle (instant_nanos now) bytes.now self.now.found }
    {
        self.settle == 0 || self.were_found(bytes, now)
    }

    fn were_found(&self, bytes: &[u8], now: Instant) -> bool
        ensures { result ≡ was_found self.now.settle (instant_nanos now) bytes.now self.now.found }
    {
        match &self.found {
            Some(found) => found.is_old(bytes, self.settle, now),
            None => false,
        }
    }

    // The bytes are given, where there is memory for a copy.
    fn give(&mut self, alloc: Global, bytes: Octets) -> Option<Octets>
        ensures given { IfSome result (λ given. (given ≡ bytes) × (self.new ≡ record self.old { last = bytes; found = None })) }
        ensures no_memory { IfNone result (self.new ≡ self.old) }
    {
        self.last = Octets::copy_of(alloc, bytes.as_slice()).ok()?;
        self.found = None;
        Some(bytes)
    }

    // The file holds these bytes, which are not given.
    fn note(&mut self, bytes: Octets, now: Instant)
        ensures found { IfSome self.new.found (λ found. (found.bytes ≡ bytes)
            × (instant_nanos found.since ≡ found_since (instant_nanos now) bytes self.old.found)) }
        ensures none { (self.new.found ≡ None → bytes ≡ self.old.last) × (bytes ≡ self.old.last → self.new.found ≡ None) }
        ensures same { self.new ≡ record self.old { found = self.new.found } }
    {
        if bytes.as_slice() == self.last.as_slice() {
            self.found = None;
            return;
        }
        let since = self.since(bytes.as_slice(), now);
        self.found = Some(Found { bytes, since });
    }

    // Since when the file holds these bytes at each reading.
    fn since(&self, bytes: &[u8], now: Instant) -> Instant
        ensures { instant_nanos result ≡ found_since (instant_nanos now) bytes.now self.now.found }
    {
        match &self.found {
            Some(found) if found.bytes.as_slice() == bytes => found.since,
            _ => now,
        }
    }

    // What the file holds. Where no descriptor is left, the one that is kept gives its place for the reading.
    fn read<R: SystemFiles>(&mut self, alloc: Global, rt: &R, buffer: &mut [u8]) -> Option<Octets>
        ensures { self.new ≡ record self.old { spare = self.new.spare } }
    {
        match fs::open(rt, self.name.as_str()) {
            Ok(mut file) => bytes_in(alloc, &mut file, buffer),
            Err(error) => {
                if are_used_up(&error) {
                    self.spare = None;
                    let bytes = bytes_of(alloc, rt, self.name.as_str(), buffer);
                    self.spare = kept_descriptor();
                    bytes
                } else {
                    None
                }
            }
        }
    }
}

// The bytes of the file of this name, which is closed again.
fn bytes_of<R: SystemFiles>(
    alloc: Global,
    rt: &R,
    name: &str,
    buffer: &mut [u8],
) -> Option<Octets> {
    let mut file = fs::open(rt, name).ok()?;
    bytes_in(alloc, &mut file, buffer)
}

fn bytes_in<F: Read>(alloc: Global, file: &mut F, buffer: &mut [u8]) -> Option<Octets> {
    match read_all(alloc, file, buffer) {
        Got::Bytes(bytes) => Some(bytes),
        Got::TooLong | Got::Failed | Got::Memory => None,
    }
}

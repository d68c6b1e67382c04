//! A disk in memory, for tests.

ghost use Rattle.std.specs.Prelude.{◌≡◌, ◌≤◌, ◌<◌, ◌^◌, ◌-◌, [], Some, true, false, length, take, option_map, OnOk, OnErr, IfSome, IsSome};
ghost use Rattle.std.specs.Option.{option_map_or};
ghost use Rattle.std.proofs.Common.{inl};
ghost use Rattle.ads_outside.specs.Rose.{Rose};
ghost use Rattle.ads_outside.specs.FailingCalls.{none_made};
ghost use Rattle.spec_store.specs.Disk.{written, Torn};
ghost use Rattle.persist_store.specs.Disk.{bytes_at};
ghost use Rattle.persist_store.specs.MemDisk.{stops_next, has_stopped, is_to_fail, are_made_by, some_of, put_next, after_call, after_name, after_put};
ghost use Rattle.persist_store.specs.MemDisk.{after_sync};

use crate::past_write::{PastWrite, PastWrites};
use crate::written::written_copy;
use crate::{Disk, DiskOpen, DiskRead, Stop, Synced, Wrote};
use ads_base::{Calls, ListOf, NoMemory, Octets};
use ads_outside::{Failing, Wire};
use std::alloc::Global;
use std::marker::Model;

/// A file in memory. Calls with given numbers fail, and the machine may stop in a call.
#[derive(Drop)]
pub struct MemDisk {
    alloc: Global,
    file: Octets,
    names: ListOf<Octets>,
    writes: PastWrites,
    period: u64,
    failing: Failing,
    stop: Option<Stop>,
}

impl Model for MemDisk {
    ghost use Rattle.std.specs.Prelude.{IsTrue};
    ghost use Rattle.persist_store.specs.MemDisk.{HeldFile, are_made_by};

    ghost Value = { HeldFile };

    ghost view = { λ m. record { file = m.file; names = m.names; writes = m.writes; period = m.period; failing = m.failing; stop = m.stop } };

    ghost invariant = { λ m. IsTrue (are_made_by m.period m.writes) };
}

impl MemDisk {
    /// A file of which nothing is pending. The calls with these numbers, counted from 1 over all calls, fail and change
    /// nothing; in the call of the stop and in every later one the machine has stopped.
    pub fn new(alloc: Global, file: Octets, fails: Calls, stop: Option<Stop>) -> MemDisk
        ensures { result ≡ record { file = file; names = []; writes = []; period = 0; failing = none_made fails; stop = stop } }
    {
        MemDisk {
            alloc,
            file,
            names: ListOf::new(alloc),
            writes: ListOf::new(alloc),
            period: 0,
            failing: Failing::new(fails),
            stop,
        }
    }

    /// The file that is left.
    pub fn file(self) -> Octets
        ensures { result ≡ self.file }
    {
        let MemDisk { file, .. } = self;
        file
    }

    /// The names that were opened, in order.
    pub fn names(&self) -> &[Octets]
        ensures { result.now ≡ self.now.names }
    {
        self.names.as_slice()
    }

    // A name that is opened.
    fn note(&mut self, name: &str) -> Result<(), NoMemory>
        ensures ok { OnOk result (self.new ≡ after_name self.old name.now) }
        ensures no_memory { OnErr result (self.new ≡ self.old) }
    {
        let name = Octets::copy_of(self.alloc, name.as_bytes())?;
        self.names.push(self.alloc, name)?;
        Ok(())
    }

    // Whether the machine stops in the next call.
    fn stops_next(&self) -> bool
        ensures { result ≡ stops_next self.now }
    {
        match &self.stop {
            None => false,
            Some(stop) => stop.call == self.failing.next_call(),
        }
    }

    // Whether the machine has stopped before the next call.
    fn has_stopped(&self) -> bool
        ensures { result ≡ has_stopped self.now }
    {
        match &self.stop {
            None => false,
            Some(stop) => stop.call < self.failing.next_call(),
        }
    }

    // Counts a call, and tells whether it fails: by its number, by a stop, or since it is refused.
    fn call(&mut self, refused: bool) -> bool
        ensures works { result ≡ false → (is_to_fail self.old ≡ false) × (refused ≡ false) }
        ensures after { self.new ≡ after_call result self.old }
        ensures later { self.old.failing.faults ≤ self.new.failing.faults }
        ensures rose { result ≡ true → Rose self.old.failing.faults self.new.failing.faults }
    {
        let fails = self.fails_next() || refused;
        if fails {
            self.failing.fault();
        } else {
            self.failing.call();
        }
        fails
    }

    // Whether the next call fails by its number or by a stop.
    fn fails_next(&self) -> bool
        ensures { result ≡ is_to_fail self.now }
    {
        self.failing.fails_next() || (self.stops_next() || self.has_stopped())
    }

    // A sync was done.
    #[tactic(auto, using(crate::proofs::PastLemmas::made_by_later))]
    fn end_period(&mut self)
        requires { self.old.period < 2 ^ 64 - 1 }
        ensures after { self.new ≡ after_sync self.old }
        ensures made { are_made_by self.old.period self.old.writes ≡ true }
    {
        self.period += 1;
    }

    // The file that the next call leaves, a write of these bytes; nothing where it writes nothing or memory is wanting.
    #[tactic(auto, using(crate::proofs::PastLemmas::torn_piece))]
    fn next_file(&self, at: u64, bytes: &[u8]) -> Option<Octets>
        ensures file { IfSome result (λ file. Some file ≡ option_map (λ piece. written at piece self.now.file) (put_next self.now bytes.now)) }
        ensures torn { IfSome result (λ file. Torn at (length bytes.now) self.now.file file) }
        ensures all { IfSome result (λ file. is_to_fail self.now ≡ false → file ≡ written at bytes.now self.now.file) }
    {
        let piece = self.next_piece(bytes)?;
        written_copy(self.alloc, self.file.as_slice(), at, piece).ok()
    }

    // What the next call, a write of these bytes, puts at its place.
    fn next_piece<'a>(&'a self, bytes: &'a [u8]) -> Option<&'a [u8]>
        ensures piece { option_map (λ piece. piece.now) result ≡ put_next self.now bytes.now }
        ensures short { IfSome result (λ piece. length piece.now ≤ length bytes.now) }
        ensures all { IfSome result (λ piece. is_to_fail self.now ≡ false → piece.now ≡ bytes.now) }
    {
        if self.stops_next() {
            return some_of(first_bytes(self.tail(), bytes.len()));
        }
        if self.failing.fails_next() || self.has_stopped() {
            None
        } else {
            Some(bytes)
        }
    }

    // The tail of the stop.
    fn tail(&self) -> &[u8]
        ensures { result.now ≡ option_map_or (λ s. s.tail) self.now.stop [] }
    {
        match &self.stop {
            None => &[],
            Some(stop) => stop.tail.as_slice(),
        }
    }

    // Takes a file that a write leaves, and tells whether it did.
    fn takes(&mut self, at: u64, size: u64, file: Option<Octets>) -> bool
        ensures kept { result ≡ false → self.new ≡ self.old }
        ensures some { result ≡ true → IsSome file }
        ensures done { IfSome file (λ file. result ≡ true → self.new ≡ after_put self.old at size file) }
    {
        match file {
            None => false,
            Some(file) => self.put(at, size, file).is_ok(),
        }
    }

    // Takes a file in the place of the one that is there, and notes the write.
    #[tactic(auto, using(crate::proofs::PastLemmas::made_by_more))]
    fn put(&mut self, at: u64, size: u64, file: Octets) -> Result<(), NoMemory>
        ensures ok { OnOk result (self.new ≡ after_put self.old at size file) }
        ensures no_memory { OnErr result (self.new ≡ self.old) }
    {
        let before = Octets::copy_of(self.alloc, self.file.as_slice())?;
        let write = PastWrite {
            before,
            place: at,
            size,
            period: self.period,
        };
        self.writes.push(self.alloc, write)?;
        self.file = file;
        Ok(())
    }
}

// The bytes, where there are some.
fn some_of(bytes: &[u8]) -> Option<&[u8]>
    ensures some { option_map (λ some. some.now) result ≡ some_of bytes.now }
    ensures length { IfSome result (λ some. some.now ≡ bytes.now) }
{
    if bytes.is_empty() { None } else { Some(bytes) }
}

// The first bytes, at most so many.
fn first_bytes(bytes: &[u8], n: usize) -> &[u8]
    ensures first { result.now ≡ take n bytes.now }
    ensures few { length result.now ≤ n }
{
    if n < bytes.len() { &bytes[..n] } else { bytes }
}

// What stands at a place of a file, as far as there is room.
fn bytes_at(file: &[u8], at: u64, room: usize) -> &[u8]
    ensures bytes { result.now ≡ bytes_at at room file.now }
    ensures few { length result.now ≤ 4294967295 }
    ensures within { length result.now ≤ room }
{
    if at >= file.len() as u64 {
        return &[];
    }
    first_bytes(&file[at as usize..], room.min(u32::MAX as usize))
}

// How a write ends that was to fail or not, and that took its file or not.
fn wrote(failed: bool, done: bool) -> Wrote
    ensures all { result ≡ Wrote.All → (failed ≡ false) × (done ≡ true) }
    ensures failed { result ≡ Wrote.Failed → failed ≡ true }
{
    if failed {
        Wrote::Failed
    } else if done {
        Wrote::All
    } else {
        Wrote::Memory
    }
}

impl Disk for MemDisk {
    ghost use Rattle.persist_store.specs.MemDisk.{leaves_now, leaves_since, leaves_told, only_left};

    ghost contents = { λ m. Some m.file };

    ghost may_leave = { leaves_now };

    ghost moment = { λ m. m.period };

    ghost left_since = { leaves_since };

    ghost marked = { λ d marks. Unit {0} };

    ghost names = { λ m. Some m.names };

    ghost fault_count = { λ m. m.failing.faults };

    ghost leaves_contents = { λ m file told. leaves_told m file told };

    ghost counts_now = { λ m t c le now. inl now };

    ghost only_now = { λ m c left. only_left m c left };

    fn faults(&self) -> u64 {
        self.failing.faults()
    }

    #[tactic(auto, using(crate::proofs::PastLemmas::quiet, crate::proofs::PastLemmas::same_now))]
    fn open(&mut self, name: &str) -> DiskOpen {
        let failed = self.call(false);
        if self.note(name).is_err() {
            return DiskOpen::Memory;
        }
        if failed {
            return DiskOpen::Failed;
        }
        DiskOpen::Ready(self.file.len() as u64)
    }

    #[tactic(auto, using(crate::proofs::PastLemmas::quiet, crate::proofs::PastLemmas::same_now))]
    fn read(&mut self, at: u64, buf: &mut [u8]) -> DiskRead {
        if self.call(false) {
            return DiskRead::Failed;
        }
        let there = bytes_at(self.file.as_slice(), at, buf.len());
        buf[..there.len()].copy_from_slice(there);
        DiskRead::Bytes(there.len() as u32)
    }

    fn write_at(&mut self, at: u64, bytes: &[u8]) -> Wrote {
        let file = self.next_file(at, bytes);
        let failed = self.call(false);
        let done = self.takes(at, bytes.len() as u64, file);
        wrote(failed, done)
    }

    #[tactic(auto, using(crate::proofs::PastLemmas::quiet, crate::proofs::PastLemmas::same_now, crate::proofs::PastLemmas::syncs_once))]
    fn sync(&mut self) -> Synced {
        let is_full = self.period == u64::MAX;
        if self.call(is_full) {
            return Synced::Failed;
        }
        self.end_period();
        Synced::Done
    }

    #[tactic(auto, using(crate::proofs::PastLemmas::still))]
    fn mark<W: Wire>(&mut self, _wire: &W) {}
}

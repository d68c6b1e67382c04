//! One notification, with the bytes that it last sent.

ghost use Rattle.std.specs.Prelude.{◌≡◌, ◌<◌, ◌==◌, ◌||◌, not, is_some, length, IfOk, IfSome, option_map};
ghost use Rattle.std.specs.List.{list_any};
ghost use Rattle.symbol_table.specs.Moves.{moved_span};
ghost use Rattle.spec_machine.specs.Watches.{is_sent, sends_by_mode, after_check};
ghost use Rattle.spec_machine.specs.WatchedRanges.{InArea, kept_own};
ghost use Rattle.index_groups.specs.Access.{range_meant};
ghost use Rattle.notify_table.specs.Specs.{watched_meant, new_watch, before_checks};
ghost use Rattle.notify_table.specs.Reloads.{watched_after, range_after, bytes_at, bit_at, end_of, ended_meant};
ghost use Rattle.notify_table.specs.Table.{watched_len, CanBeWatched};

use crate::sent::SentBytes;
use crate::{Ended, Mode, Spec, Watched};
use ads_base::{AmsAddr, NoMemory};
use index_groups::Reach;
use std::alloc::Global;
use std::marker::Model;
use symbol_table::Moves;
use type_layout::Area;

// A live notification. All that its check needs stands together.
#[derive(Drop)]
pub(crate) struct Record {
    // The moment of its last check, where there was one.
    last: u64,
    // As many bytes as are watched, from the addition on; sent where there was a check.
    sent: SentBytes,
    watched: Watched,
    handle: u32,
    cycle: u32,
    to: AmsAddr,
    port: u16,
    mode: Mode,
    checked: bool,
}

impl Model for Record {
    ghost use Rattle.spec_machine.specs.WatchedRanges.{Watched};
    ghost use Rattle.spec_machine.specs.Watches.{Watch};

    ghost Value = { Watch Watched };

    ghost use Rattle.notify_table.specs.Records.{watch_of, IsSound};

    ghost view = { watch_of };

    ghost invariant = { IsSound };
}

impl Record {
    ghost use Rattle.notify_table.specs.Turns.{next_moment};

    // A notification before its first check. All memory that its checks need is taken here.
    pub fn new(alloc: Global, handle: u32, spec: Spec) -> Result<Record, NoMemory>
        requires { CanBeWatched (watched_meant spec.watched) }
        ensures { IfOk result (λ w. w ≡ new_watch handle spec) }
    {
        let sent = SentBytes::new(alloc, len_of(spec.watched))?;
        Ok(Record {
            last: 0,
            sent,
            watched: spec.watched,
            handle,
            cycle: spec.cycle,
            to: spec.to,
            port: spec.port,
            mode: spec.mode,
            checked: false,
        })
    }

    pub fn spec(&self) -> Spec
        ensures { new_watch self.now.handle result ≡ before_checks self.now }
    {
        Spec {
            port: self.port,
            to: self.to,
            watched: self.watched,
            mode: self.mode,
            cycle: self.cycle,
        }
    }

    #[inline(always)]
    pub fn handle(&self) -> u32
        ensures { result ≡ self.now.handle }
    {
        self.handle
    }

    #[inline(always)]
    pub fn cycle(&self) -> u32
        ensures { result ≡ self.now.cycle }
    {
        self.cycle
    }

    // The moment from which on the next check is due.
    pub fn next(&self) -> u128
        ensures { result ≡ next_moment self.now }
    {
        if self.checked {
            u128::from(self.last) + u128::from(self.cycle.max(1))
        } else {
            0
        }
    }

    // A check at a moment: whether its bytes are to be sent. They are kept where they are.
    #[inline(always)]
    pub fn check(&mut self, now: u64, bytes: &[u8]) -> bool
        requires { length bytes.now ≡ watched_len self.old.watched }
        ensures sent { result ≡ is_sent bytes.now self.old }
        ensures new { self.new ≡ after_check now bytes.now self.old }
    {
        let same = self.sent.renew(bytes);
        let sent = self.sends(same);
        self.last = now;
        self.checked = true;
        sent
    }

    // What it watches after a reload; none where that is neither all of one kept symbol nor a port's own.
    pub fn moved(&self, m: &Moves, ports: &[u16]) -> Option<Watched>
        ensures moved { option_map watched_meant result ≡ watched_after m.now ports.now self.now.port self.now.watched }
        ensures len { IfSome result (λ watched. watched_len (watched_meant watched) ≡ watched_len self.now.watched) }
    {
        moved_watched(m, ports, self.port, self.watched)
    }

    // As many bytes are watched elsewhere.
    pub fn put(&mut self, watched: Watched)
        requires { watched_len (watched_meant watched) ≡ watched_len self.old.watched }
        ensures { self.new ≡ record self.old { watched = watched_meant watched } }
    {
        self.watched = watched;
    }

    pub fn ended(&self) -> Ended
        ensures { ended_meant result ≡ end_of self.now }
    {
        Ended {
            handle: self.handle,
            port: self.port,
            to: self.to,
        }
    }

    // Whether a check sends its bytes, where they are or are not the same as those that stand here.
    #[inline(always)]
    fn sends(&self, same: bool) -> bool
        ensures { result ≡ (not (is_some self.now.last) || sends_by_mode self.now.mode same) }
    {
        !self.checked || self.mode == Mode::Cycle || !same
    }
}

// How many bytes a check takes.
fn len_of(watched: Watched) -> usize
    ensures { result ≡ watched_len (watched_meant watched) }
{
    match watched {
        Watched::InArea(Reach::Bytes { len, .. }) => len as usize,
        Watched::InArea(Reach::Bit { .. }) => 1,
        Watched::InArea(Reach::Size { .. }) => 0,
        Watched::Own { len, .. } => len as usize,
    }
}

// What is watched after a reload, where the new ports have these numbers.
fn moved_watched(m: &Moves, ports: &[u16], port: u16, watched: Watched) -> Option<Watched>
    requires { 0 < watched_len (watched_meant watched) }
    ensures moved { option_map watched_meant result ≡ watched_after m.now ports.now port (watched_meant watched) }
    ensures len { IfSome result (λ there. watched_len (watched_meant there) ≡ watched_len (watched_meant watched)) }
{
    match watched {
        Watched::InArea(reach) => moved_in_area(m, port, reach),
        Watched::Own { first, len } => own_kept(ports, port, first, len),
    }
}

// A port's own bytes stay where they are, while the port is there.
fn own_kept(ports: &[u16], port: u16, first: u8, len: u8) -> Option<Watched>
    ensures moved { option_map watched_meant result ≡ kept_own ports.now port first len }
    ensures len { IfSome result (λ there. watched_len (watched_meant there) ≡ len) }
{
    if is_among(ports, port) {
        return Some(Watched::Own { first, len });
    }
    None
}

fn is_among(ports: &[u16], port: u16) -> bool
    ensures { result ≡ list_any (λ n. n == port) ports.now }
{
    ports.iter().any(|number| *number == port)
}

fn moved_in_area(m: &Moves, port: u16, reach: Reach) -> Option<Watched>
    requires { 0 < watched_len (InArea (range_meant reach)) }
    ensures moved { option_map watched_meant result ≡ option_map InArea (range_after m.now port (range_meant reach)) }
    ensures len { IfSome result (λ there. watched_len (watched_meant there) ≡ watched_len (InArea (range_meant reach))) }
{
    let there = moved_reach(m, port, reach)?;
    Some(Watched::InArea(there))
}

// Where a reload puts bytes or a bit of an area.
fn moved_reach(m: &Moves, port: u16, reach: Reach) -> Option<Reach>
    requires { 0 < watched_len (InArea (range_meant reach)) }
    ensures moved { option_map range_meant result ≡ range_after m.now port (range_meant reach) }
    ensures len { IfSome result (λ there. watched_len (InArea (range_meant there)) ≡ watched_len (InArea (range_meant reach))) }
{
    match reach {
        Reach::Bytes { area, at, len } => moved_bytes(m, port, area, at, len),
        Reach::Bit { area, at, bit } => moved_bit(m, port, area, at, bit),
        Reach::Size { .. } => None,
    }
}

fn moved_bytes(m: &Moves, port: u16, area: Area, at: u32, len: u32) -> Option<Reach>
    requires { 0 < len }
    ensures moved { option_map range_meant result ≡ option_map (bytes_at len) (moved_span m.now port area at len) }
    ensures len { IfSome result (λ there. watched_len (InArea (range_meant there)) ≡ len) }
{
    let (area, at) = m.span(port, area, at, len)?;
    Some(Reach::Bytes { area, at, len })
}

fn moved_bit(m: &Moves, port: u16, area: Area, at: u32, bit: u8) -> Option<Reach>
    ensures moved { option_map range_meant result ≡ option_map (bit_at bit) (moved_span m.now port area at 1) }
    ensures len { IfSome result (λ there. watched_len (InArea (range_meant there)) ≡ 1) }
{
    let (area, at) = m.span(port, area, at, 1)?;
    Some(Reach::Bit { area, at, bit })
}

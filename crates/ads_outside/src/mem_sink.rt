//! A sink in memory, for tests.

ghost use Rattle.std.specs.Prelude.{◌≡◌, ◌≢◌, ◌≤◌, ◌<◌, [], Some, length, take};

use crate::{Failing, Put, Sink};
use ads_base::{Calls, NoMemory, Octets};
use std::alloc::Global;
use std::marker::Model;

/// Bytes in memory. Calls with given numbers fail, and leave as many first bytes of their pieces as is given.
#[derive(Drop)]
pub struct MemSink {
    alloc: Global,
    bytes: Octets,
    failing: Failing,
    parts: Calls,
    wants: u64,
}

impl Model for MemSink {
    ghost use Rattle.ads_outside.specs.MemSink.{HeldBytes};

    ghost Value = { HeldBytes };

    ghost view = { λ m. record { bytes = m.bytes; failing = m.failing; parts = m.parts; wants = m.wants } };
}

impl MemSink {
    ghost use Rattle.ads_outside.specs.FailingCalls.{none_made};
    ghost use Rattle.ads_outside.specs.MemSink.{part_of};

    /// No bytes; the calls of `put` with these numbers, counted from 1, fail, and write nothing.
    pub fn new(alloc: Global, fails: Calls) -> MemSink
        ensures { result ≡ record { bytes = []; failing = none_made fails; parts = []; wants = 0 } }
    {
        MemSink::with_parts(alloc, fails, Calls::new(alloc))
    }

    /// The same, where the n-th call that fails leaves the n-th number of first bytes of its piece, and nothing where
    /// there is no such number.
    pub fn with_parts(alloc: Global, fails: Calls, parts: Calls) -> MemSink
        ensures { result ≡ record { bytes = []; failing = none_made fails; parts = parts; wants = 0 } }
    {
        MemSink {
            alloc,
            bytes: Octets::new(alloc),
            failing: Failing::new(fails),
            parts,
            wants: 0,
        }
    }

    /// The bytes that were written.
    pub fn bytes(&self) -> &[u8]
        ensures { result.now ≡ self.now.bytes }
    {
        self.bytes.as_slice()
    }

    // What the next call that fails leaves of a piece.
    fn part<'a>(&self, piece: &'a [u8]) -> &'a [u8]
        ensures { result.now ≡ take (part_of self.now) piece.now }
    {
        let n = self.failing.faults() as usize;
        let len = self.parts.as_slice().get(n).copied().unwrap_or(0);
        first_bytes(piece, len)
    }
}

// The first bytes of a piece, at most so many.
fn first_bytes(piece: &[u8], len: u64) -> &[u8]
    ensures { result.now ≡ take len piece.now }
{
    if len < piece.len() as u64 {
        &piece[..len as usize]
    } else {
        piece
    }
}

impl Sink for MemSink {
    ghost use Rattle.ads_outside.specs.MemSink.{answer_of, held_after};
    ghost use Rattle.ads_outside.specs.Puts.{Puts};
    ghost use Rattle.ads_outside.specs.SinkState.{NeverFalls};

    ghost state = { λ m. record { held = Some m.bytes; faults = m.failing.faults; wants = m.wants } };

    fn faults(&self) -> u64 {
        self.failing.faults()
    }

    fn put(&mut self, bytes: &[u8]) -> Put
        ensures put { Puts result (record { held = Some self.old.bytes; faults = self.old.failing.faults; wants = self.old.wants })
            (record { held = Some self.new.bytes; faults = self.new.failing.faults; wants = self.new.wants }) bytes.now }
        ensures later { NeverFalls (record { held = Some self.old.bytes; faults = self.old.failing.faults; wants = self.old.wants })
            (record { held = Some self.new.bytes; faults = self.new.failing.faults; wants = self.new.wants }) }
        ensures answer { result ≢ Put.Memory → result ≡ answer_of self.old }
        ensures counted { self.new ≡ held_after result self.old bytes.now }
    {
        let fails = self.failing.fails_next();
        let piece = if fails { self.part(bytes) } else { bytes };
        match self.bytes.put(self.alloc, piece) {
            Ok(()) if fails => {
                self.failing.fault();
                Put::Failed
            }
            Ok(()) => {
                self.failing.call();
                Put::All
            }
            Err(NoMemory) => {
                self.failing.call();
                self.wants = self.wants.saturating_add(1);
                Put::Memory
            }
        }
    }
}

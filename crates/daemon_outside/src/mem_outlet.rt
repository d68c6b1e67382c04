//! An outlet of a log in memory, for tests.

ghost use Rattle.std.specs.Prelude.{◌≡◌, ◌≢◌, ◌≤◌, ◌<◌, [], Some, length};

use crate::LogOutlet;
use ads_base::Octets;
use ads_outside::Cuts;
use std::alloc::Global;
use std::marker::Model;

/// Bytes in memory. The n-th call takes at most the n-th number of bytes; calls past these numbers take all. Where memory
/// is wanting it takes none.
#[derive(Drop)]
pub struct MemOutlet {
    alloc: Global,
    bytes: Octets,
    cuts: Cuts,
    calls: u64,
}

impl Model for MemOutlet {
    ghost use Rattle.daemon_outside.specs.MemOutlet.{HeldOutlet};

    ghost Value = { HeldOutlet };

    ghost view = { λ o. record { bytes = o.bytes; cuts = o.cuts; calls = o.calls } };
}

impl MemOutlet {
    ghost use Rattle.daemon_outside.specs.MemOutlet.{takes_next};

    /// No bytes.
    pub fn new(alloc: Global, cuts: Cuts) -> MemOutlet
        ensures { result ≡ record { bytes = []; cuts = cuts; calls = 0 } }
    {
        MemOutlet {
            alloc,
            bytes: Octets::new(alloc),
            cuts,
            calls: 0,
        }
    }

    /// The bytes that were taken.
    pub fn bytes(&self) -> &[u8]
        ensures { result.now ≡ self.now.bytes }
    {
        self.bytes.as_slice()
    }

    // How many of so many bytes the next call takes.
    fn next_cut(&self, len: u32) -> u32
        ensures { result ≡ takes_next self.now len }
    {
        match self.cuts.as_slice().get(self.calls as usize) {
            Some(cut) => len.min(*cut),
            None => len,
        }
    }
}

impl LogOutlet for MemOutlet {
    ghost use Rattle.std.specs.Prelude.{◌⊎◌};
    ghost use Rattle.daemon_outside.specs.Outlet.{TakesFirst};
    ghost use Rattle.daemon_outside.specs.MemOutlet.{takes_next, outlet_after};

    ghost held = { λ o. Some o.bytes };

    fn take(&mut self, bytes: &[u8]) -> u32
        requires some { 0 < length bytes.now }
        requires few { length bytes.now ≤ 4096 }
        ensures within { result ≤ length bytes.now }
        ensures takes { TakesFirst result (Some self.old.bytes) (Some self.new.bytes) bytes.now }
        ensures answer { (result ≡ takes_next self.old (length bytes.now)) ⊎ (result ≡ 0) }
        ensures counted { self.new ≡ outlet_after result self.old bytes.now }
    {
        let taken = self.next_cut(bytes.len() as u32);
        self.calls = self.calls.saturating_add(1);
        match self.bytes.put(self.alloc, &bytes[..taken as usize]) {
            Ok(()) => taken,
            Err(_) => 0,
        }
    }
}

//! The peers that were refused.

ghost use Rattle.std.specs.Prelude.{◌≡◌, ◌≤◌, ◌<◌, ◌+◌, ◌^◌, Some};
ghost use Rattle.ads_outside.specs.Rose.{raised};
ghost use Rattle.ads_edge.specs.RefusedPeers.{NoneRefused, refused_at};

use std::net::SocketAddr;

/// How many of the last refused peers are known.
pub(crate) const KNOWN: usize = 16;

/// How many peers were refused, and who the last 16 of them were.
#[derive(Drop)]
pub(crate) struct RefusedPeers {
    pub(crate) count: u64,
    // The n-th, counted from 0, stands at n modulo 16.
    pub(crate) last: [Option<SocketAddr>; KNOWN],
}

impl RefusedPeers {
    /// No peer was refused.
    pub(crate) fn new() -> RefusedPeers
        ensures { NoneRefused result }
    {
        RefusedPeers {
            count: 0,
            last: [None; KNOWN],
        }
    }

    /// One more was refused. The count stands still at its type's end.
    pub(crate) fn note(&mut self, peer: SocketAddr)
        ensures count { self.new.count ≡ raised self.old.count }
        ensures last { self.old.count + 1 < 2 ^ 64 → refused_at self.old.count self.new ≡ Some peer }
    {
        let place = (self.count % KNOWN as u64) as usize;
        self.last[place] = Some(peer);
        self.count = self.count.saturating_add(1);
    }

    /// The n-th that was refused, counted from 0, if it is one of the last 16.
    pub(crate) fn at(&self, n: u64) -> Option<SocketAddr>
        ensures { result ≡ refused_at n self.now }
    {
        if n < self.count && self.count - n <= KNOWN as u64 {
            self.last[(n % KNOWN as u64) as usize]
        } else {
            None
        }
    }
}

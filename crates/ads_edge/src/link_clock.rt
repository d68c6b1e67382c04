//! The moments of a link.

ghost use Rattle.std.specs.Prelude.{◌≡◌};
ghost use Rattle.std.specs.Duration.{as_nanos};
ghost use Rattle.std.specs.Time.{instant_nanos};
ghost use Rattle.ads_edge.specs.LinkClock.{since, steady_moment};

use std::time::Instant;

/// A moment of the wall clock, in 100 ns since 1 January 1601, and when the steady clock stood there. Later moments are told
/// by the steady clock alone.
#[derive(Clone, Copy)]
pub(crate) struct LinkClock {
    pub(crate) start: Instant,
    pub(crate) moment: u64,
}

impl LinkClock {
    /// The moment at this time of the steady clock; it stands still at its type's end.
    pub(crate) fn moment_at(&self, now: Instant) -> u64
        ensures { result ≡ steady_moment self.now now }
    {
        self.moment.saturating_add(self.since(now))
    }

    // How many 100 ns have passed since the start.
    fn since(&self, now: Instant) -> u64
        ensures { result ≡ since self.now now }
    {
        let passed = now.duration_since(self.start).as_nanos() / 100;
        passed.min(u64::MAX as u128) as u64
    }
}

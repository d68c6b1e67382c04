//! The clock of the ticks.

ghost use Rattle.std.specs.Prelude.{◌≡◌, ◌<◌, ◌↔◌, IsSome, IfSome, nat_lt};
ghost use Rattle.std.specs.Duration.{as_nanos};
ghost use Rattle.std.specs.Time.{instant_nanos};
ghost use Rattle.ads_edge.specs.Beats.{after, gained, moment_at};
ghost use Rattle.ads_edge.specs.TickClock.{beat_of, later_than, left_at, since};

use crate::beats::Beats;
use std::time::{Duration, Instant};

/// The nanoseconds between two beats.
pub(crate) const BEAT_NANOS: u64 = 10_000_000;

/// A clock that strikes at each beat of 10 ms since its start.
#[derive(Clone, Copy)]
pub(crate) struct TickClock {
    pub(crate) start: Instant,
    pub(crate) beats: Beats,
}

impl TickClock {
    /// A clock that starts at this time, which is this moment.
    pub(crate) fn new(start: Instant, moment: u64) -> TickClock
        ensures { result ≡ record { start = start; beats = record { beat = 0; moment = moment } } }
    {
        TickClock {
            start,
            beats: Beats::new(moment),
        }
    }

    /// The beat at this time: how many whole 10 ms have passed since the start.
    pub(crate) fn beat_at(&self, now: Instant) -> u64
        ensures { result ≡ beat_of (since self.now now) }
    {
        self.since(now) / BEAT_NANOS
    }

    /// Whether a beat has come that was not come to before.
    pub(crate) fn is_due(&self, now: Instant) -> bool
        ensures { result ≡ nat_lt self.now.beats.beat (beat_of (since self.now now)) }
    {
        self.beats.beat < self.beat_at(now)
    }

    /// The moment of the tick that is given at this time, where one is.
    pub(crate) fn strike(&mut self, now: Instant, wall: u64) -> Option<u64>
        ensures ticks { IsSome result ↔ (0 < gained self.old.beats (beat_of (since self.old now)) wall) }
        ensures moment { IfSome result (λ moment. moment ≡ moment_at self.old.beats (beat_of (since self.old now)) wall) }
        ensures beats { self.new.beats ≡ after self.old.beats (beat_of (since self.old now)) wall }
        ensures start { self.new.start ≡ self.old.start }
    {
        let beat = self.beat_at(now);
        self.beats.come_to(beat, wall)
    }

    /// How long it is till the next beat: nothing where one is due.
    pub(crate) fn left(&self, now: Instant) -> Duration
        ensures { as_nanos result ≡ left_at self.now now }
    {
        if self.is_due(now) {
            return Duration::ZERO;
        }
        Duration::from_nanos(BEAT_NANOS - self.since(now) % BEAT_NANOS)
    }

    // The nanoseconds since the start.
    fn since(&self, now: Instant) -> u64
        ensures { result ≡ since self.now now }
    {
        let nanos = now.duration_since(self.start).as_nanos();
        nanos.min(u64::MAX as u128) as u64
    }
}

/// A time that comes so much later; the same where there is none so late.
pub(crate) fn later(time: Instant, by: Duration) -> Instant
    ensures { instant_nanos result ≡ later_than (instant_nanos time) (as_nanos by) }
{
    time.checked_add(by).unwrap_or(time)
}

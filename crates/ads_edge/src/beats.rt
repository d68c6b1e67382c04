//! Beats of 10 ms, and the moments of the ticks that are given at them.

ghost use Rattle.std.specs.Prelude.{ℕ, ◌≡◌, ◌↔◌, ◌<◌, ◌≤◌, ◌+◌, ◌*◌, ◌-◌, ◌^◌, IsSome, IfSome, IfNone};
ghost use Rattle.ads_edge.specs.Beats.{IsBeatsAfter, after, followed, gained, later_by, moment_at, rests};

/// The time between two beats, in 100 ns.
pub(crate) const BEAT: u64 = 100_000;

/// How far the wall clock may be off before it is followed, in 100 ns: a second.
pub(crate) const SLACK: u64 = 10_000_000;

/// One beat in so many rests while the moments are ahead of the wall clock.
pub(crate) const REST: u64 = 100;

/// The beats of a steady clock: how many were come to since the start, and the moment of the last tick, in 100 ns since
/// 1 January 1601.
#[derive(Clone, Copy)]
pub(crate) struct Beats {
    pub(crate) beat: u64,
    pub(crate) moment: u64,
}

impl Beats {
    /// No beat was come to, and the moment is that of the start.
    pub(crate) fn new(moment: u64) -> Beats
        ensures { result ≡ record { beat = 0; moment = moment } }
    {
        Beats { beat: 0, moment }
    }

    /// The moment of the tick that is given when this beat is come to, where one is: none where it was come to before, or
    /// rests. Beats that were missed give no tick, and their time has passed.
    #[tactic(auto, using(crate::proofs::BeatLemmas::whole_beats))]
    pub(crate) fn come_to(&mut self, beat: u64, wall: u64) -> Option<u64>
        ensures ticks { IsSome result ↔ (0 < gained self.old beat wall) }
        ensures moment { IfSome result (λ moment. moment ≡ moment_at self.old beat wall) }
        ensures state { self.new ≡ after self.old beat wall }
        ensures whole { IfSome result (IsBeatsAfter self.old.moment) }
        ensures none { IfNone result (self.new.moment ≡ self.old.moment) }
    {
        let gained = self.gained(beat, wall);
        self.beat = self.beat.max(beat);
        if gained == 0 {
            return None;
        }
        self.moment = followed(later_by(self.moment, gained), wall);
        Some(self.moment)
    }

    // By how many beats the moment goes on when this one is come to.
    fn gained(&self, beat: u64, wall: u64) -> u64
        ensures { result ≡ gained self.now beat wall }
    {
        let passed = beat.saturating_sub(self.beat);
        if self.rests(beat, wall) {
            passed.saturating_sub(1)
        } else {
            passed
        }
    }

    // Whether one of the beats up to this one rests.
    fn rests(&self, beat: u64, wall: u64) -> bool
        ensures { result ≡ rests self.now beat wall }
    {
        SLACK < self.moment.saturating_sub(wall) && self.beat / REST < beat / REST
    }
}

// The moment so many beats later.
fn later_by(moment: u64, beats: u64) -> u64
    ensures { result ≡ later_by moment beats }
{
    moment.saturating_add(beats.saturating_mul(BEAT))
}

// A moment, brought forward by whole beats where the wall clock is more than a second ahead of it.
fn followed(moment: u64, wall: u64) -> u64
    ensures { result ≡ followed moment wall }
{
    let behind = wall.saturating_sub(moment);
    if SLACK < behind {
        wall - behind % BEAT
    } else {
        moment
    }
}

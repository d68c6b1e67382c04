//! What may ask a daemon to stop.

ghost use Rattle.std.specs.Prelude.{◌≡◌, ◌≤◌, is_some};

use crate::StopCause;

/// Something that may ask for an end.
pub trait Stop {
    ghost use Rattle.std.specs.Prelude.{ℕ};
    ghost use Rattle.ads_outside.specs.Rose.{raised};
    ghost use Rattle.daemon_outside.specs.Stops.{raised_if};

    /// How often it was looked at; the count stands still at its type's end.
    ghost looks: { Self → ℕ };

    /// How many looks found that an end is asked for; the count stands still at its type's end.
    ghost asked: { Self → ℕ };

    /// Looks whether an end is asked for, and why.
    fn look(&mut self) -> Option<StopCause>
        ensures looks { looks self.new ≡ raised (looks self.old) }
        ensures asked { asked self.new ≡ raised_if (is_some result) (asked self.old) }
        ensures later { asked self.old ≤ asked self.new };
}

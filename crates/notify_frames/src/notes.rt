//! The samples of a notification, given one by one.

ghost use Rattle.std.specs.Prelude.{◌≡◌, ◌↔◌, [], ◌∷◌, IsNone, IfSome, IfNone, IsSome, Some};
ghost use Rattle.notify_frames.specs.Samples.{sample_meant};
ghost use Rattle.notify_frames.specs.Place.{left_of};

use crate::Sample;
use crate::place::{Place, step};
use std::marker::Model;

/// The samples of a notification that are left, each with the moment of its stamp; contracts see the list.
#[derive(Debug, Drop)]
pub struct Notes<'a> {
    place: Place<'a>,
}

impl<'a> Model for Notes<'a> {
    ghost use Rattle.std.specs.Prelude.{ℕ, List, [], IsSome, unwrap_or};
    ghost use Rattle.spec_formats.specs.Notification as notification;
    ghost use Rattle.notify_frames.specs.Place.{left_of};

    ghost Value = { List (ℕ × notification.Sample) };

    ghost view = { λ n. unwrap_or (left_of n.place) [] };

    ghost invariant = { λ n. IsSome (left_of n.place) };
}

impl<'a> Notes<'a> {
    /// The samples from a place on.
    pub(crate) fn at(place: Place<'a>) -> Self
        requires { IsSome (left_of place) }
        ensures { Some result ≡ left_of place.entry }
    {
        Notes { place }
    }

    /// The next sample, and the moment of its stamp: 100 ns since 1 January 1601. `None` after the last.
    pub fn next(&mut self) -> Option<(u64, Sample<'a>)>
        ensures next { IfSome result (λ (time, s). self.old ≡ (time, sample_meant s) ∷ self.new) }
        ensures none { IsNone result ↔ (self.old ≡ []) }
        ensures end { IfNone result (self.new ≡ []) }
    {
        let (time, sample, after) = step(self.place)?;
        self.place = after;
        Some((time, sample))
    }
}

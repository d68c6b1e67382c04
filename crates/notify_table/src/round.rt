//! Checks in place of all that is due at a moment.

ghost use Rattle.std.specs.Prelude.{◌≡◌, length, IfSome, IsTrue, IsSomeAnd};
ghost use Rattle.spec_machine.specs.Watches.{is_due, is_sent};
ghost use Rattle.notify_table.specs.Specs.{new_watch, before_checks};
ghost use Rattle.notify_table.specs.Table.{watched_len, IsTable};
ghost use Rattle.notify_table.specs.Rounds.{HasNext, next_handle, next_watch, round_after};
ghost use Rattle.notify_table.specs.Numbered.{AreGranted, table_from};

use crate::Spec;
use crate::record::Record;
use crate::schedule::Schedule;
use std::collections::VecDeque;
use std::marker::Model;

/// The notifications of one connection while those that are due at a moment are checked, one after another and where they stand. Contracts see the
/// notifications, the handles of those that are checked, the moment, and how many checks were made.
#[derive(Drop)]
pub struct Round {
    // Those that are due stand in front, in the order of their checks.
    pub(crate) ring: VecDeque<Record>,
    pub(crate) granted: u32,
    pub(crate) moment: u64,
    pub(crate) due: usize,
    pub(crate) made: usize,
}

impl Model for Round {
    ghost use Rattle.notify_table.specs.Rounds.{RoundState};

    ghost Value = { RoundState };

    ghost use Rattle.notify_table.specs.InPlace.{round_of, IsRound};

    ghost view = { round_of };

    ghost invariant = { IsRound };
}

impl Round {
    /// How many notifications are checked.
    #[inline(always)]
    pub fn len(&self) -> usize
        ensures { result ≡ length self.now.handles }
    {
        self.due
    }

    /// The moment of the checks.
    pub fn moment(&self) -> u64
        ensures { result ≡ self.now.moment }
    {
        self.moment
    }

    /// The handle of the notification that is checked next.
    #[inline(always)]
    pub fn handle(&self) -> u32
        requires { HasNext self.now }
        ensures { result ≡ next_handle self.now }
    {
        self.ring[self.made].handle()
    }

    /// What the notification that is checked next was added as, and what it watches now.
    #[inline(always)]
    pub fn spec(&self) -> Spec
        requires { HasNext self.now }
        ensures spec { IsSomeAnd (next_watch self.now) (λ w. new_watch (next_handle self.now) result ≡ before_checks w) }
        ensures table { IsTable self.now.table }
    {
        self.ring[self.made].spec()
    }

    /// Makes the next check, of a notification that is due and whose bytes are these: whether a sample is to be sent. The
    /// moment is kept, and the bytes where they are sent.
    #[inline(always)]
    pub fn check(&mut self, bytes: &[u8]) -> bool
        requires next { HasNext self.old }
        requires due { IsSomeAnd (next_watch self.old)
            (λ w. IsTrue (is_due self.old.moment w) × (length bytes.now ≡ watched_len w.watched)) }
        ensures sent { IfSome (next_watch self.old) (λ w. result ≡ is_sent bytes.now w) }
        ensures new { self.new ≡ round_after bytes.now self.old }
    {
        let sent = self.ring[self.made].check(self.moment, bytes);
        self.made += 1;
        sent
    }

    // The schedule after all checks, and how many notifications were granted. The notifications that were checked go behind the
    // others.
    pub(crate) fn into_schedule(self) -> (Schedule, u32)
        requires { self.made ≡ length self.handles }
        ensures table { table_from result.0 result.1 ≡ self.table }
        ensures granted { AreGranted result.0 result.1 }
    {
        let Round {
            mut ring,
            granted,
            moment: _,
            due,
            made: _,
        } = self;
        ring.rotate_left(due);
        (Schedule::of_ring(ring), granted)
    }
}

//! The notifications of one connection.

ghost use Rattle.std.specs.Prelude.{◌≡◌, ◌+◌, ◌<◌, ◌≤◌, ◌↔◌, ◌==◌, not, false, filter, map, All, length};
ghost use Rattle.std.specs.Prelude.{option_map, IfNone, IsTrue, IsOk, IsErr, IsSomeAnd, IfSome, IfOk, IfErr, OnOk, OnErr};
ghost use Rattle.std.specs.List.Sorted.{IsStrictlyIncreasing};
ghost use Rattle.spec_machine.specs.Watches.{is_due, is_sent, ended_watches};
ghost use Rattle.notify_table.specs.Specs.{watched_meant, new_watch, before_checks};
ghost use Rattle.notify_table.specs.Table.{watched_len, CanBeWatched, no_watches, is_full, is_live};
ghost use Rattle.notify_table.specs.Table.{watch_of_handle, due_handles, IsTable};
ghost use Rattle.notify_table.specs.Table.{table_after, Added, Deleted, Checked, Reloaded};
ghost use Rattle.notify_table.specs.Rounds.{round_at};
ghost use Rattle.notify_table.specs.Reloads.{watched_after, end_of, ended_meant};
ghost use Rattle.notify_table.specs.Numbered.{IsLive, end_of_handle};

use crate::round::Round;
use crate::schedule::Schedule;
use crate::{Ended, EndedList, Handles32, Spec, WatchFull};
use ads_base::{NoMemory, Steps};
use return_codes::Code;
use std::alloc::Global;
use std::marker::Model;
use std::mem;
use std::sync::ledger::Ledger;
use symbol_table::Moves;

// How many notifications may be live.
const MAX_LIVE: usize = 512;

/// The notifications of one connection. Contracts see the live ones by rising handle, each with the moment of its last
/// check and the bytes that it last sent, and how many were added.
///
/// Beckhoff Information System, "ADS Add Device Notification", "ADS Delete Device Notification".
#[derive(Drop)]
pub struct Watches {
    schedule: Schedule,
    granted: u32,
}

impl Model for Watches {
    ghost use Rattle.notify_table.specs.Table.{WatchTable};
    ghost use Rattle.notify_table.specs.Numbered.{table_from, AreGranted};

    ghost Value = { WatchTable };

    ghost view = { λ w. table_from w.schedule w.granted };

    ghost invariant = { λ w. AreGranted w.schedule w.granted };
}

impl Watches {
    /// No notifications, and none was added.
    pub fn new(alloc: Global) -> Result<Watches, NoMemory>
        ensures { IfOk result (λ watches. watches ≡ no_watches) }
    {
        Ok(Watches {
            schedule: Schedule::new(alloc),
            granted: 0,
        })
    }

    /// Adds a notification and gives its handle: the n-th that is added has the handle n. All memory that its checks
    /// need is taken here.
    pub fn add(&mut self, alloc: Global, spec: Spec) -> Result<Result<u32, WatchFull>, NoMemory>
        requires { CanBeWatched (watched_meant spec.watched) }
        ensures handle { IfOk result (λ answer. IfOk answer (λ handle. handle ≡ self.old.additions + 1)) }
        ensures ok { IfOk result (λ answer. IfOk answer (λ handle.
            self.new ≡ table_after self.old (Added (new_watch handle spec)))) }
        ensures full { IfOk result (λ answer. IsErr answer ↔ IsTrue (is_full self.old)) }
        ensures err { IfOk result (λ answer. OnErr answer (self.new ≡ self.old)) }
        ensures no_memory { OnErr result (self.new ≡ self.old) }
    {
        if self.is_full() {
            return Ok(Err(WatchFull));
        }
        let handle = self.granted + 1;
        self.schedule.add(alloc, handle, spec)?;
        self.granted = handle;
        Ok(Ok(handle))
    }

    fn is_full(&self) -> bool
        ensures full { result ≡ is_full self.now }
        ensures room { result ≡ false → (length self.now.watches < 512) × (self.now.additions < 4294967295) }
    {
        self.schedule.len() >= MAX_LIVE || self.granted == u32::MAX
    }

    /// Deletes a notification, and nothing of it stays; the client's address plays no part. 0x714 where no live
    /// notification of this port has the handle.
    pub fn delete(&mut self, handle: u32, port: u16) -> Result<(), Code>
        ensures live { IsOk result ↔ IsTrue (is_live port handle self.old) }
        ensures ok { OnOk result (self.new ≡ table_after self.old (Deleted handle)) }
        ensures not_live { IfErr result (λ code. code ≡ Code.C714) }
        ensures err { OnErr result (self.new ≡ self.old) }
    {
        let Some(at) = self.schedule.find(handle) else {
            return Err(Code::C714);
        };
        if self.schedule.spec(at).port != port {
            return Err(Code::C714);
        }
        self.schedule.remove(at);
        Ok(())
    }

    /// What a live notification was added as, and what it watches now.
    pub fn spec(&self, handle: u32) -> Option<Spec>
        ensures spec { option_map (new_watch handle) result
            ≡ option_map before_checks (watch_of_handle handle self.now) }
        ensures table { IsTable self.now }
    {
        let at = self.schedule.find(handle)?;
        Some(self.schedule.spec(at))
    }

    /// The handles of the notifications whose check is due at a moment, rising. A notification is due at the first
    /// tick after it was added, and then where its cycle has passed since its last check. One step is counted for each
    /// notification that is looked at: those that are due, and at most one more.
    pub fn due<L: Ledger>(
        &self,
        alloc: Global,
        now: u64,
        steps: &mut Steps<L>,
    ) -> Result<Handles32, NoMemory>
        ensures due { IfOk result (λ handles. handles ≡ due_handles now self.now) }
        ensures rising { IfOk result IsStrictlyIncreasing }
        ensures table { IsTable self.now }
        ensures cost { steps.new ≤ steps.old + (length (due_handles now self.now) + 1) }
        ensures counted { OnOk result (steps.old + length (due_handles now self.now) ≤ steps.new) }
    {
        let mut handles = self.schedule.due(alloc, now, steps)?;
        handles.sort_unstable();
        Ok(Handles32::from_vec(handles))
    }

    /// Gives the notifications away for the checks of those that are due at a moment, where at least one is due, their handles
    /// rise in the order in which they became due, and they will go behind the others as they stand. Beside those that are due
    /// one more is looked at, and no list is made. `close` takes the notifications back; until then there are none here.
    pub fn open(&mut self, alloc: Global, now: u64) -> Option<Round>
        ensures round { IfSome result (λ round. round ≡ round_at now self.old) }
        ensures rising { IfSome result (λ round. IsStrictlyIncreasing round.handles) }
        ensures table { IsTable self.old }
        ensures none { IfNone result (self.new ≡ self.old) }
    {
        let schedule = mem::replace(&mut self.schedule, Schedule::new(alloc));
        match schedule.into_round(self.granted, now) {
            Ok(round) => Some(round),
            Err(schedule) => {
                self.schedule = schedule;
                None
            }
        }
    }

    /// Takes the notifications back after all checks.
    pub fn close(&mut self, round: Round)
        requires { round.made ≡ length round.handles }
        ensures { self.new ≡ round.table }
    {
        let (schedule, granted) = round.into_schedule();
        self.schedule = schedule;
        self.granted = granted;
    }

    /// How many notifications are due at a moment. None is looked at but by halving.
    pub fn count_due(&self, now: u64) -> usize
        ensures { result ≡ length (due_handles now self.now) }
    {
        self.schedule.count_due(now)
    }

    /// Checks a due notification whose bytes are these: whether a sample is to be sent. The moment is kept, and the
    /// bytes where they are sent. The others that are due stay so.
    pub fn checked(&mut self, handle: u32, now: u64, bytes: &[u8]) -> bool
        requires { IsSomeAnd (watch_of_handle handle self.old)
            (λ w. IsTrue (is_due now w) × (length bytes.now ≡ watched_len w.watched)) }
        ensures sent { IfSome (watch_of_handle handle self.old) (λ w. result ≡ is_sent bytes.now w) }
        ensures watches { self.new ≡ table_after self.old (Checked handle now bytes.now) }
        ensures others_due { due_handles now self.new ≡ filter (λ h. not (h == handle)) (due_handles now self.old) }
    {
        match self.schedule.find(handle) {
            Some(at) => self.schedule.check(at, now, bytes),
            None => unreachable!(),
        }
    }

    /// A reload, after which the ports have these numbers. A notification all of whose bytes, or the byte of whose bit, are
    /// of one kept symbol goes on at its new place, and one of a port's own bytes where the port is there, with the moment of
    /// its last check and the bytes that it last sent. All others end, are given by rising handle, and nothing of them stays.
    pub fn moved(&mut self, alloc: Global, m: &Moves, ports: &[u16]) -> Result<EndedList, NoMemory>
        ensures ended { IfOk result (λ ended. map ended_meant ended
            ≡ map end_of (ended_watches (watched_after m.now ports.now) self.old.watches)) }
        ensures watches { OnOk result (self.new ≡ table_after self.old (Reloaded (watched_after m.now ports.now))) }
        ensures table { IsTable self.old }
        ensures no_memory { OnErr result (self.new ≡ self.old) }
    {
        let ended = self.ended(alloc, m, ports)?;
        self.schedule.settle_all(m, ports);
        Ok(ended)
    }

    // Those that a reload ends, by rising handle.
    fn ended(&self, alloc: Global, m: &Moves, ports: &[u16]) -> Result<EndedList, NoMemory>
        ensures { IfOk result (λ ended. map ended_meant ended
            ≡ map end_of (ended_watches (watched_after m.now ports.now) self.now.watches)) }
    {
        let mut handles = self.schedule.ending(alloc, m, ports)?;
        handles.sort_unstable();
        self.told(alloc, &handles)
    }

    // What is told of notifications that end.
    fn told(&self, alloc: Global, handles: &[u32]) -> Result<EndedList, NoMemory>
        requires { All (IsLive self.now) handles.now }
        ensures { IfOk result (λ ended. map ended_meant ended ≡ map (end_of_handle self.now) handles.now) }
    {
        let mut ended = EndedList::new(alloc);
        for handle in handles {
            ended.push(alloc, self.told_of(*handle))?;
        }
        Ok(ended)
    }

    fn told_of(&self, handle: u32) -> Ended
        requires { IsLive self.now handle }
        ensures { ended_meant result ≡ end_of_handle self.now handle }
    {
        match self.schedule.find(handle) {
            Some(at) => self.schedule.ended(at),
            None => unreachable!(),
        }
    }
}

//! The live notifications of one connection, in the order in which their checks become due.

ghost use Rattle.std.specs.Prelude.{◌≡◌, ℕ, ◌+◌, ◌<◌, ◌≤◌, [], map, filter, length, insert, remove, position};
ghost use Rattle.std.specs.Prelude.{IfSome, Some, IsTrue, IfOk, IfErr, OnOk, OnErr};
ghost use Rattle.std.specs.List.Sorted.{IsStrictlyIncreasing};
ghost use Rattle.spec_machine.specs.Watches.{is_due, is_sent, after_check, watch_after_reload, watches_after_reload};
ghost use Rattle.notify_table.specs.Specs.{watched_meant, new_watch, before_checks};
ghost use Rattle.notify_table.specs.Table.{watched_len, CanBeWatched, handle_of, is_numbered};
ghost use Rattle.notify_table.specs.Turns.{AreInTurn};
ghost use Rattle.notify_table.specs.Schedules.{nth_watch, IsSettled};
ghost use Rattle.notify_table.specs.Numbered.{AreGranted, table_from};
ghost use Rattle.notify_table.specs.Rounds.{round_at};
ghost use Rattle.notify_table.specs.Reloads.{watched_after, is_ended, end_of, ended_meant};

use crate::going_round::go_round;
use crate::record::Record;
use crate::ring::{count_due, due_of_ring, put_record, take_record};
use crate::round::Round;
use crate::{Ended, Spec};
use ads_base::{NoMemory, Steps};
use std::alloc::Global;
use std::collections::VecDeque;
use std::marker::Model;
use std::sync::ledger::Ledger;
use symbol_table::Moves;

// The notifications, which contracts see as their list in the order in which their checks become due.
#[derive(Drop)]
pub(crate) struct Schedule {
    // By the moment from which on the next check is due, and by handle. One that is checked leaves the front and, mostly,
    // goes to the back, so nothing between them is moved.
    ring: VecDeque<Record>,
}

impl Model for Schedule {
    ghost use Rattle.std.specs.Prelude.{List};
    ghost use Rattle.spec_machine.specs.WatchedRanges.{Watched};
    ghost use Rattle.spec_machine.specs.Watches.{Watch};
    ghost use Rattle.notify_table.specs.Turns.{AreInTurn};

    ghost Value = { List (Watch Watched) };

    ghost view = { λ s. s.ring.items };

    ghost invariant = { λ s. AreInTurn s.ring.items };
}

impl Schedule {
    // Of the notifications of a round all of whose checks were made.
    pub fn of_ring(ring: VecDeque<Record>) -> Schedule
        requires { AreInTurn ring.items }
        ensures { result ≡ ring.items }
    {
        Schedule { ring }
    }

    pub fn new(alloc: Global) -> Schedule
        ensures { result ≡ [] }
    {
        Schedule {
            ring: VecDeque::new(alloc),
        }
    }

    pub fn len(&self) -> usize
        ensures { result ≡ length self.now }
    {
        self.ring.len()
    }

    // Adds a notification, whose first check is due at once. All memory that its checks need is taken here.
    pub fn add(&mut self, alloc: Global, handle: u32, spec: Spec) -> Result<(), NoMemory>
        requires { CanBeWatched (watched_meant spec.watched) }
        ensures ok { OnOk result ((place : ℕ) × (place ≤ length self.old)
            × (self.new ≡ insert self.old place (new_watch handle spec))) }
        ensures no_memory { OnErr result (self.new ≡ self.old) }
    {
        let record = Record::new(alloc, handle, spec)?;
        self.ring.reserve(1)?;
        put_record(&mut self.ring, record);
        Ok(())
    }

    // The place of the notification with a handle.
    pub fn find(&self, handle: u32) -> Option<usize>
        ensures { result ≡ position (is_numbered handle) self.now }
    {
        place_of_handle(&self.ring, handle)
    }

    pub fn spec(&self, at: usize) -> Spec
        requires { at < length self.now }
        ensures { new_watch (nth_watch self.now at).handle result ≡ before_checks (nth_watch self.now at) }
    {
        self.ring[at].spec()
    }

    pub fn remove(&mut self, at: usize)
        requires { at < length self.old }
        ensures { self.new ≡ remove self.old at }
    {
        let _ = take_record(&mut self.ring, at);
    }

    // Checks a notification at a moment: whether its bytes are to be sent.
    pub fn check(&mut self, at: usize, now: u64, bytes: &[u8]) -> bool
        requires there { at < length self.old }
        requires len { length bytes.now ≡ watched_len (nth_watch self.old at).watched }
        ensures sent { result ≡ is_sent bytes.now (nth_watch self.old at) }
        ensures new { (place : ℕ) × (place ≤ length (remove self.old at))
            × (self.new ≡ insert (remove self.old at) place (after_check now bytes.now (nth_watch self.old at))) }
    {
        let mut record = take_record(&mut self.ring, at);
        let sent = record.check(now, bytes);
        put_record(&mut self.ring, record);
        sent
    }

    // The handles of the notifications that are due, in the order of their turns. One step for each that is looked at.
    pub fn due<L: Ledger>(
        &self,
        alloc: Global,
        now: u64,
        steps: &mut Steps<L>,
    ) -> Result<Vec<u32>, NoMemory>
        ensures due { IfOk result (λ handles. handles.items ≡ map handle_of (filter (λ w. is_due now w) self.now)) }
        ensures cost { steps.new ≤ steps.old + (length (map handle_of (filter (λ w. is_due now w) self.now)) + 1) }
        ensures counted { OnOk result (steps.old + length (map handle_of (filter (λ w. is_due now w) self.now)) ≤ steps.new) }
    {
        due_of_ring(alloc, &self.ring, now, steps)
    }

    // How many notifications are due.
    pub fn count_due(&self, now: u64) -> usize
        ensures { result ≡ length (map handle_of (filter (λ w. is_due now w) self.now)) }
    {
        count_due(&self.ring, now)
    }

    // The round of those that are due at a moment, where at least one is, their handles rise in the order of their turns, and
    // after their checks they go behind the others as they stand. Else the schedule as it was.
    pub fn into_round(self, granted: u32, now: u64) -> Result<Round, Schedule>
        requires { AreGranted self granted }
        ensures round { IfOk result (λ round. round ≡ round_at now (table_from self granted)) }
        ensures rising { IfOk result (λ round. IsStrictlyIncreasing round.handles) }
        ensures same { IfErr result (λ schedule. schedule ≡ self) }
    {
        let Schedule { ring } = self;
        let due = count_due(&ring, now);
        if due == 0 || !go_round(&ring, due, now) {
            return Err(Schedule { ring });
        }
        Ok(Round {
            ring,
            granted,
            moment: now,
            due,
            made: 0,
        })
    }

    // The handles of the notifications that a reload ends, in the order of their turns.
    pub fn ending(&self, alloc: Global, m: &Moves, ports: &[u16]) -> Result<Vec<u32>, NoMemory>
        ensures { IfOk result (λ handles. handles.items ≡ map handle_of (filter (is_ended m.now ports.now) self.now)) }
    {
        ending_of(alloc, &self.ring, m, ports)
    }

    pub fn ended(&self, at: usize) -> Ended
        requires { at < length self.now }
        ensures { ended_meant result ≡ end_of (nth_watch self.now at) }
    {
        self.ring[at].ended()
    }

    // After a reload: those that it ends are gone, and the others watch their bytes at their new place.
    pub fn settle_all(&mut self, m: &Moves, ports: &[u16])
        ensures { self.new ≡ watches_after_reload (watched_after m.now ports.now) self.old }
    {
        let mut at = 0;
        while at < self.len() {
            at = self.settle(at, m, ports);
        }
    }

    // After a reload one goes on or is gone: the place of the next.
    fn settle(&mut self, at: usize, m: &Moves, ports: &[u16]) -> usize
        requires { at < length self.old }
        ensures { IsSettled (watch_after_reload (watched_after m.now ports.now) (nth_watch self.old at))
            self.old self.new at result }
    {
        match self.ring[at].moved(m, ports) {
            Some(watched) => {
                self.ring[at].put(watched);
                at + 1
            }
            None => {
                self.remove(at);
                at
            }
        }
    }
}

fn place_of_handle(ring: &VecDeque<Record>, handle: u32) -> Option<usize>
    ensures { result ≡ position (is_numbered handle) ring.now.items }
{
    // The first is due the longest, so mostly it is looked for.
    if is_first(ring, handle) {
        return Some(0);
    }
    place_by_walk(ring, handle)
}

// The same, apart from the code of the caller.
#[inline(never)]
fn place_by_walk(ring: &VecDeque<Record>, handle: u32) -> Option<usize>
    ensures { result ≡ position (is_numbered handle) ring.now.items }
{
    ring.iter().position(|record| record.handle() == handle)
}

// Whether the first has a handle.
fn is_first(ring: &VecDeque<Record>, handle: u32) -> bool
    ensures { IsTrue result → position (is_numbered handle) ring.now.items ≡ Some 0 }
{
    match ring.front() {
        Some(record) => record.handle() == handle,
        None => false,
    }
}

fn ending_of(
    alloc: Global,
    ring: &VecDeque<Record>,
    m: &Moves,
    ports: &[u16],
) -> Result<Vec<u32>, NoMemory>
    ensures { IfOk result (λ handles. handles.items ≡ map handle_of (filter (is_ended m.now ports.now) ring.now.items)) }
{
    let mut handles = Vec::new(alloc);
    for i in 0..ring.len() {
        let record = &ring[i];
        if record.moved(m, ports).is_none() {
            handles.push(record.handle())?;
        }
    }
    Ok(handles)
}

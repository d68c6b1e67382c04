//! The order in which checks become due.

ghost use Rattle.std.specs.Prelude.{◌≡◌, ℕ, ◌+◌, ◌<◌, ◌≤◌, map, filter, length, insert, nat_lt, IfOk, IsTrue};
ghost use Rattle.std.specs.Prelude.{OnOk, remove, slice_index_or, take};
ghost use Rattle.std.specs.VecDeque.{deque_len, deque_capacity};
ghost use Rattle.notify_table.specs.Table.{handle_of};
ghost use Rattle.notify_table.specs.Turns.{AreInTurn, IsPlaceOf, HasHandle, rank_of, turn_rank, is_turn_due};

use crate::record::Record;
use ads_base::{NoMemory, Steps};
use std::alloc::Global;
use std::collections::VecDeque;
use std::sync::ledger::Ledger;

// Whether a notification comes before this place in the order: at an earlier moment, or at the same with a lesser handle.
#[inline(always)]
pub(crate) fn is_before(one: &Record, next: u128, handle: u32) -> bool
    ensures { result ≡ nat_lt (turn_rank one.now) (rank_of next handle) }
{
    let own = one.next();
    let number = one.handle();
    if own == next {
        number < handle
    } else {
        own < next
    }
}

fn place_of(ring: &VecDeque<Record>, next: u128, handle: u32) -> usize
    requires { AreInTurn ring.now.items }
    ensures { IsPlaceOf (rank_of next handle) ring.now.items result }
{
    ring.partition_point(|record| is_before(record, next, handle))
}

// Whether a place in the order is behind all, as mostly after a check.
fn is_behind_all(ring: &VecDeque<Record>, next: u128, handle: u32) -> bool
    requires { AreInTurn ring.now.items }
    ensures { IsTrue result → IsPlaceOf (rank_of next handle) ring.now.items (length ring.now.items) }
{
    match ring.back() {
        Some(last) => is_before(last, next, handle),
        None => true,
    }
}

// Puts a notification where it belongs. There is room.
#[inline(always)]
pub(crate) fn put_record(ring: &mut VecDeque<Record>, one: Record)
    requires in_turn { AreInTurn ring.old.items }
    requires handle { HasHandle one }
    requires room { deque_len ring.old < deque_capacity ring.old }
    ensures put { (place : ℕ) × (place ≤ deque_len ring.old)
        × (ring.new.items ≡ insert ring.old.items place one) }
    ensures in_turn { AreInTurn ring.new.items }
{
    if is_behind_all(ring, one.next(), one.handle()) {
        put_last(ring, one);
        return;
    }
    put_between(ring, one);
}

// The same by a search, apart from the code of the caller.
#[inline(never)]
fn put_between(ring: &mut VecDeque<Record>, one: Record)
    requires in_turn { AreInTurn ring.old.items }
    requires handle { HasHandle one }
    requires room { deque_len ring.old < deque_capacity ring.old }
    ensures put { (place : ℕ) × (place ≤ deque_len ring.old)
        × (ring.new.items ≡ insert ring.old.items place one) }
    ensures in_turn { AreInTurn ring.new.items }
{
    let place = place_of(ring, one.next(), one.handle());
    put_at(ring, place, one);
}

fn put_at(ring: &mut VecDeque<Record>, place: usize, one: Record)
    requires within { place ≤ deque_len ring.old }
    requires room { deque_len ring.old < deque_capacity ring.old }
    ensures { ring.new.items ≡ insert ring.old.items place one }
{
    // There is room, so this cannot fail.
    let _ = ring.insert(place, one);
}

// Puts a notification behind all others, where it belongs. There is room.
fn put_last(ring: &mut VecDeque<Record>, one: Record)
    requires in_turn { AreInTurn ring.old.items }
    requires handle { HasHandle one }
    requires room { deque_len ring.old < deque_capacity ring.old }
    requires behind { IsPlaceOf (turn_rank one) ring.old.items (length ring.old.items) }
    ensures put { (place : ℕ) × (place ≤ deque_len ring.old)
        × (ring.new.items ≡ insert ring.old.items place one) }
    ensures in_turn { AreInTurn ring.new.items }
{
    ring.push_back_reserved(one);
}

// Takes the notification at a place out. Its room stays.
#[inline(always)]
pub(crate) fn take_record(ring: &mut VecDeque<Record>, at: usize) -> Record
    requires { at < deque_len ring.old }
    ensures value { result ≡ slice_index_or ring.old.items at result }
    ensures items { ring.new.items ≡ remove ring.old.items at }
    ensures len { deque_len ring.new + 1 ≡ deque_len ring.old }
    ensures capacity { deque_capacity ring.new ≡ deque_capacity ring.old }
{
    // The first is due the longest, so mostly it is taken; it leaves its place without a move of the others.
    if at == 0 {
        return take_first(ring);
    }
    take_other(ring, at)
}

// The same, apart from the code of the caller.
#[inline(never)]
fn take_other(ring: &mut VecDeque<Record>, at: usize) -> Record
    requires { at < deque_len ring.old }
    ensures value { result ≡ slice_index_or ring.old.items at result }
    ensures items { ring.new.items ≡ remove ring.old.items at }
    ensures len { deque_len ring.new + 1 ≡ deque_len ring.old }
    ensures capacity { deque_capacity ring.new ≡ deque_capacity ring.old }
{
    match ring.remove(at) {
        Some(record) => record,
        None => unreachable!(),
    }
}

// Takes the first out. Its room stays.
fn take_first(ring: &mut VecDeque<Record>) -> Record
    requires { 0 < deque_len ring.old }
    ensures value { result ≡ slice_index_or ring.old.items 0 result }
    ensures items { ring.new.items ≡ remove ring.old.items 0 }
    ensures len { deque_len ring.new + 1 ≡ deque_len ring.old }
    ensures capacity { deque_capacity ring.new ≡ deque_capacity ring.old }
{
    match ring.pop_front() {
        Some(record) => record,
        None => unreachable!(),
    }
}

// The handles of those that are due, in their order. One step for each that is looked at.
pub(crate) fn due_of_ring<L: Ledger>(
    alloc: Global,
    ring: &VecDeque<Record>,
    now: u64,
    steps: &mut Steps<L>,
) -> Result<Vec<u32>, NoMemory>
    requires { AreInTurn ring.now.items }
    ensures due { IfOk result (λ handles. handles.items ≡ map handle_of (filter (is_turn_due now) ring.now.items)) }
    ensures cost { steps.new ≤ steps.old + (length (filter (is_turn_due now) ring.now.items) + 1) }
    ensures counted { OnOk result (steps.old + length (filter (is_turn_due now) ring.now.items) ≤ steps.new) }
{
    // So many are due, and the list grows no further.
    let mut handles = Vec::with_capacity(alloc, count_due(ring, now))?;
    for i in 0..ring.len() {
        let record = &ring[i];
        if !is_due(record, now, steps) {
            return Ok(handles);
        }
        handles.push(record.handle())?;
    }
    Ok(handles)
}

// How many are due: they stand in front, so the place behind the last is found by halving.
pub(crate) fn count_due(ring: &VecDeque<Record>, now: u64) -> usize
    requires { AreInTurn ring.now.items }
    ensures count { result ≡ length (filter (is_turn_due now) ring.now.items) }
    ensures front { take result ring.now.items ≡ filter (is_turn_due now) ring.now.items }
{
    let now = u128::from(now);
    ring.partition_point(|record| record.next() <= now)
}

fn is_due<L: Ledger>(one: &Record, now: u64, steps: &mut Steps<L>) -> bool
    ensures value { result ≡ is_turn_due now one.now }
    ensures step { steps.new ≡ steps.old + 1 }
{
    steps.tick();
    one.next() <= u128::from(now)
}

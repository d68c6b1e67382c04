//! The notifications of a round.

ghost use Rattle.std.specs.Prelude.{◌<◌, ◌≤◌, take, IsTrue};
ghost use Rattle.std.specs.VecDeque.{deque_len};
ghost use Rattle.notify_table.specs.Turns.{AreInTurn};
ghost use Rattle.notify_table.specs.InPlace.{RiseTogether, GoRound, IsBehind};

use crate::record::Record;
use crate::ring::is_before;
use std::collections::VecDeque;

// Whether the handles of the first so many rise, and all are in turn once these are checked and go behind the others.
pub(crate) fn go_round(ring: &VecDeque<Record>, due: usize, now: u64) -> bool
    requires some { 0 < due }
    requires within { due ≤ deque_len ring.now }
    requires in_turn { AreInTurn ring.now.items }
    ensures rise { IsTrue result → RiseTogether (take due ring.now.items) }
    ensures round { IsTrue result → GoRound now due ring.now.items }
{
    is_behind_others(ring, due, now) && rise_together(ring, due)
}

// Whether the handles of the first so many rise, and their cycles do not fall.
fn rise_together(ring: &VecDeque<Record>, due: usize) -> bool
    requires some { 0 < due }
    requires within { due ≤ deque_len ring.now }
    ensures { IsTrue result → RiseTogether (take due ring.now.items) }
{
    let mut handle = ring[0].handle();
    let mut cycle = ring[0].cycle();
    for i in 1..due {
        let record = &ring[i];
        let next = record.handle();
        let next_cycle = record.cycle();
        if next <= handle {
            return false;
        }
        if next_cycle < cycle {
            return false;
        }
        handle = next;
        cycle = next_cycle;
    }
    true
}

// Whether the first comes behind those that stand behind the first so many, once it is checked.
fn is_behind_others(ring: &VecDeque<Record>, due: usize, now: u64) -> bool
    requires some { 0 < due }
    requires within { due ≤ deque_len ring.now }
    ensures { IsTrue result → IsBehind now due ring.now.items }
{
    if due == ring.len() {
        return true;
    }
    let first = &ring[0];
    let next = u128::from(now) + u128::from(first.cycle().max(1));
    is_before(&ring[ring.len() - 1], next, first.handle())
}

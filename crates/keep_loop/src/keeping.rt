//! Turns with a saver beside them, and the save at their end.

ghost use Rattle.std.specs.Prelude.{◌≡◌, ◌≢◌, ◌≤◌, ◌<◌, ◌+◌, ◌^◌, List, true, false, None};
ghost use Rattle.ads_outside.specs.declared.end.End.TheVariants as end;
ghost use Rattle.ads_outside.specs.Rose.{Rose};
ghost use Rattle.ads_served.specs.Standing.{Standing};
ghost use Rattle.persist_store.specs.Marks.{Mark, MarksStay};
ghost use Rattle.persist_store.specs.Store.{IsReady, body_of};
ghost use Rattle.serve_loop.specs.Beside.{AfterLoop, ShowsStopped};
ghost use Rattle.serve_loop.specs.Looks.{Look, IsBodyOf};
ghost use Rattle.serve_loop.specs.TurnTaken.{StandsOver};
ghost use Rattle.serve_loop.specs.Wanting.{WasWanting};
ghost use Rattle.keep_loop.specs.Ending.{EndsAsStopped, EndsBySave, end_of};
ghost use Rattle.keep_loop.specs.Saving.{LeavesEach, StandsForSome};
ghost use Rattle.keep_loop.specs.Keeping.{AfterKeep, TookTurns, CountsSaves, StandsAtEnd};
ghost use Rattle.keep_loop.specs.Marking.{HoldsSaves, MarksBeforeEnd, MarksRun, MarksMore, is_to_end};
ghost use Rattle.keep_loop.specs.Saver.{BeginsAnew, KeepsDisk, MayBeShown, SeenBy, StopsAtLook, is_stop};
ghost use Rattle.keep_loop.specs.Wanting.{WantsToKeep};

use crate::KeepEnd;
use crate::marking::{mark_behind, mark_end};
use crate::run_end::RunEnd;
use crate::save_end::SaveEnd;
use crate::saves_or_stops::SavesOrStops;
use crate::saving::save_body;
use ads_outside::{End, Wire};
use ads_served::Served;
use persist_store::{Disk, Store};
use serve_loop::{LoopEnd, serve_beside};
use std::alloc::Global;
use std::thread::Threads;

/// Serves a wire as `serve` does, and saves the body of what is served after each so manieth turn with a tick and at the
/// end, where it differs from the one that stands, or nothing stands.
pub fn keep_turns<T: Threads + Sync, W: Wire, M: Served, D: Disk>(
    rt: &T,
    alloc: Global,
    served: &mut M,
    wire: &mut W,
    store: Store,
    disk: &mut D,
    every: u64,
    limit: u64,
) -> KeepEnd
    requires some { StandsForSome (StandsOver (M.serves served.old) (W.state wire.old).history.opened) }
    requires ready { IsReady D.contents D.may_leave disk.old store }
    requires open { store.shut ≡ false }
    requires every { 1 ≤ every }
    requires few { limit + 1 < 2 ^ 64 }
    // The turns, the saves among the bodies of their moves, and what a stop at any moment leaves of them.
    ensures keeps { AfterKeep
        (TookTurns result every M.body_of M.steps M.noted (M.serves served.old) (M.serves served.new) (body_of store) (W.state wire.old)
        (W.state wire.new) limit)
        (LeavesEach D.contents D.moment D.left_since disk.old disk.new store.standing)
        (CountsSaves result store.standing)
        (StandsAtEnd result D.contents D.may_leave disk.old disk.new store.standing) }
    // Behind which moves of the wire each save stands, as may be told of the disk.
    ensures marks { (x : Standing M.World M.Client) → StandsOver (M.serves served.old) (W.state wire.old).history.opened x
        → (marks : List Mark) → D.marked disk.old marks
        → MarksMore (D.marked disk.new) marks (MarksRun (is_to_end result) every M.body_of M.steps x.running.state
        (HoldsSaves (D.contents disk.old) store.standing) (W.state wire.old).history (W.state wire.new).history) }
    ensures untold { D.contents disk.old ≡ None → D.contents disk.new ≡ None }
    ensures kept { W.kept wire.new ≡ W.kept wire.old }
    // Why it ended.
    ensures store_fault { result ≡ KeepEnd.StoreFault → Rose (D.fault_count disk.old) (D.fault_count disk.new) }
    ensures names { D.names disk.new ≡ D.names disk.old }
    ensures later { D.fault_count disk.old ≤ D.fault_count disk.new }
    ensures wire_later { (W.state wire.old).faults ≤ (W.state wire.new).faults }
    ensures wanted { (W.state wire.old).wants ≤ (W.state wire.new).wants }
    ensures memory { result ≡ KeepEnd.Memory → WantsToKeep M.steps M.noted (M.serves served.old) (M.serves served.new)
        (M.has_failed served.new) (W.state wire.old) (W.state wire.new) limit }
{
    let end = keep_saves(rt, alloc, served, wire, store, disk, every, limit);
    mark_end(wire, disk, is_to_end(end));
    end
}

// Whether a run came to its end.
fn is_to_end(end: KeepEnd) -> bool
    ensures { result ≡ is_to_end end }
{
    match end {
        KeepEnd::Done(_) | KeepEnd::LinkFault(_) | KeepEnd::Budget(_) => true,
        KeepEnd::StoreFault | KeepEnd::StoreLimit | KeepEnd::Memory => false,
    }
}

// The turns and the saves of a run, whose end is not marked yet.
fn keep_saves<T: Threads + Sync, W: Wire, M: Served, D: Disk>(
    rt: &T,
    alloc: Global,
    served: &mut M,
    wire: &mut W,
    store: Store,
    disk: &mut D,
    every: u64,
    limit: u64,
) -> KeepEnd
    requires some { StandsForSome (StandsOver (M.serves served.old) (W.state wire.old).history.opened) }
    requires ready { IsReady D.contents D.may_leave disk.old store }
    requires open { store.shut ≡ false }
    requires every { 1 ≤ every }
    requires few { limit + 1 < 2 ^ 64 }
    // The turns, the saves among the bodies of their moves, and what a stop at any moment leaves of them.
    ensures keeps { AfterKeep
        (TookTurns result every M.body_of M.steps M.noted (M.serves served.old) (M.serves served.new) (body_of store) (W.state wire.old)
        (W.state wire.new) limit)
        (LeavesEach D.contents D.moment D.left_since disk.old disk.new store.standing)
        (CountsSaves result store.standing)
        (StandsAtEnd result D.contents D.may_leave disk.old disk.new store.standing) }
    ensures marks { (x : Standing M.World M.Client) → StandsOver (M.serves served.old) (W.state wire.old).history.opened x
        → (marks : List Mark) → D.marked disk.old marks
        → MarksMore (D.marked disk.new) marks (MarksBeforeEnd (is_to_end result) every M.body_of M.steps x.running.state
        (HoldsSaves (D.contents disk.old) store.standing) (D.contents disk.new) (W.state wire.old).history (W.state wire.new).history) }
    ensures untold { D.contents disk.old ≡ None → D.contents disk.new ≡ None }
    ensures kept { W.kept wire.new ≡ W.kept wire.old }
    // Why it ended.
    ensures store_fault { result ≡ KeepEnd.StoreFault → Rose (D.fault_count disk.old) (D.fault_count disk.new) }
    ensures names { D.names disk.new ≡ D.names disk.old }
    ensures later { D.fault_count disk.old ≤ D.fault_count disk.new }
    ensures wire_later { (W.state wire.old).faults ≤ (W.state wire.new).faults }
    ensures wanted { (W.state wire.old).wants ≤ (W.state wire.new).wants }
    ensures memory { result ≡ KeepEnd.Memory → WantsToKeep M.steps M.noted (M.serves served.old) (M.serves served.new)
        (M.has_failed served.new) (W.state wire.old) (W.state wire.new) limit }
{
    let mut saver = SavesOrStops {
        store,
        every,
        left: every - 1,
        saved: 0,
        became: SaveEnd::Same,
    };
    match save_turns(rt, alloc, served, wire, &mut saver, disk, limit) {
        LoopEnd::Ended(End::Done) => save_last(
            alloc,
            served,
            &mut saver.store,
            disk,
            RunEnd::Done,
            saver.saved,
        ),
        LoopEnd::Ended(End::LinkFault) => save_last(
            alloc,
            served,
            &mut saver.store,
            disk,
            RunEnd::LinkFault,
            saver.saved,
        ),
        LoopEnd::Ended(End::Budget) => save_last(
            alloc,
            served,
            &mut saver.store,
            disk,
            RunEnd::Budget,
            saver.saved,
        ),
        LoopEnd::Ended(End::Memory) => KeepEnd::Memory,
        LoopEnd::Stopped => end_of_stop(saver.became),
    }
}

// How a run ends that what became of a body ended behind a tick.
fn end_of_stop(became: SaveEnd) -> KeepEnd
    requires { is_stop became ≡ true }
    ensures { EndsAsStopped became result }
{
    match became {
        SaveEnd::Failed => KeepEnd::StoreFault,
        SaveEnd::Limit => KeepEnd::StoreLimit,
        SaveEnd::Memory => KeepEnd::Memory,
        SaveEnd::Same | SaveEnd::Saved => unreachable!(),
    }
}

// The turns of a run, with a saver beside them.
fn save_turns<T: Threads + Sync, W: Wire, M: Served, D: Disk>(
    rt: &T,
    alloc: Global,
    served: &mut M,
    wire: &mut W,
    saver: &mut SavesOrStops,
    disk: &mut D,
    limit: u64,
) -> LoopEnd
    requires some { StandsForSome (StandsOver (M.serves served.old) (W.state wire.old).history.opened) }
    requires ready { MayBeShown D.contents D.may_leave limit saver.old.every saver.old.saved saver.old.store disk.old }
    requires anew { BeginsAnew saver.old.every saver.old.left saver.old.saved }
    ensures serve { AfterLoop result M.body_of M.steps M.noted (M.serves served.old) (M.serves served.new) (W.state wire.old) (W.state wire.new)
        limit (SeenBy D.contents D.moment D.left_since D.marked D.names D.fault_count saver.old.every saver.old.left saver.old.saved
        saver.new.every saver.new.left saver.new.saved saver.old.store saver.new.store disk.old disk.new) }
    ensures stopped { result ≡ LoopEnd.Stopped → ShowsStopped M.body_of M.steps M.noted M.serves (M.serves served.old) (M.serves served.new)
        (W.state wire.old).history (W.state wire.new).history limit
        (λ (mid : SavesOrStops) (there : D). SeenBy D.contents D.moment D.left_since D.marked D.names D.fault_count saver.old.every saver.old.left
        saver.old.saved mid.every mid.left mid.saved saver.old.store mid.store disk.old there)
        (λ (mid : SavesOrStops) (there : D). StopsAtLook D.contents D.may_leave D.moment D.left_since D.marked D.names D.fault_count
        saver.new.became mid.left mid.store saver.new.store there disk.new (IsBodyOf M.body_of (M.serves served.new))) }
    ensures ready { result ≢ LoopEnd.Stopped → MayBeShown D.contents D.may_leave 0 saver.new.every saver.new.saved saver.new.store disk.new }
    ensures keeps { KeepsDisk D.contents D.names D.fault_count disk.old disk.new }
    ensures kept { W.kept wire.new ≡ W.kept wire.old }
    ensures wire_later { (W.state wire.old).faults ≤ (W.state wire.new).faults }
    ensures wanted { (W.state wire.old).wants ≤ (W.state wire.new).wants }
    ensures memory { result ≡ LoopEnd.Ended end.Memory → WasWanting (M.has_failed served.new) (W.state wire.old) (W.state wire.new) }
{
    let ended = serve_beside(rt, alloc, served, wire, saver, disk, limit);
    ended
}

// The save at the end of a run whose turns ended so, with so many saves.
fn save_last<M: Served, D: Disk>(
    alloc: Global,
    served: &M,
    store: &mut Store,
    disk: &mut D,
    ended: RunEnd,
    saved: u64,
) -> KeepEnd
    requires some { StandsForSome (M.serves served.now) }
    requires ready { IsReady D.contents D.may_leave disk.old store.old }
    requires open { store.old.shut ≡ false }
    requires few { saved + 1 < 2 ^ 64 }
    ensures ends { EndsBySave result ended saved (λ body. (x : Standing M.World M.Client) → M.serves served.now x → body ≡ M.body_of x.running.state.world)
        D.contents D.moment D.left_since disk.old disk.new store.old store.new }
    ensures ready { IsReady D.contents D.may_leave disk.new store.new }
    ensures untold { D.contents disk.old ≡ None → D.contents disk.new ≡ None }
    ensures names { D.names disk.new ≡ D.names disk.old }
    ensures marks { MarksStay D.marked disk.old disk.new }
    ensures later { D.fault_count disk.old ≤ D.fault_count disk.new }
    ensures failed { result ≡ KeepEnd.StoreFault → Rose (D.fault_count disk.old) (D.fault_count disk.new) }
{
    match save_body(alloc, served, store, disk) {
        SaveEnd::Same => end_of(ended, saved),
        SaveEnd::Saved => end_of(ended, saved + 1),
        SaveEnd::Failed => KeepEnd::StoreFault,
        SaveEnd::Limit => KeepEnd::StoreLimit,
        SaveEnd::Memory => KeepEnd::Memory,
    }
}

// How a run whose turns ended so ends with so many saves.
fn end_of(ended: RunEnd, saved: u64) -> KeepEnd
    ensures { result ≡ end_of ended saved }
{
    match ended {
        RunEnd::Done => KeepEnd::Done(saved),
        RunEnd::LinkFault => KeepEnd::LinkFault(saved),
        RunEnd::Budget => KeepEnd::Budget(saved),
    }
}

//! The loop that serves on where a save fails.

ghost use Rattle.std.specs.Prelude.{◌≡◌, ◌≤◌, ◌<◌, ◌+◌, ◌-◌, ◌^◌, ◌⊎◌, List, false, None, Some};
ghost use Rattle.ads_outside.specs.Rose.{Rose};
ghost use Rattle.ads_served.specs.Standing.{Standing};
ghost use Rattle.persist_store.specs.Disk.{OpensOnly};
ghost use Rattle.persist_store.specs.Marks.{Mark, MarksStay};
ghost use Rattle.persist_store.specs.Store.{IsReady};
ghost use Rattle.serve_loop.specs.declared.loop_end.LoopEnd.TheVariants as loop;
ghost use Rattle.serve_loop.specs.Beside.{AfterLoop};
ghost use Rattle.serve_loop.specs.Looks.{Look};
ghost use Rattle.serve_loop.specs.TurnTaken.{StandsOver};
ghost use Rattle.serve_loop.specs.Wanting.{WasWanting};
ghost use Rattle.keep_loop.specs.declared.save_end.SaveEnd.TheVariants as save;
ghost use Rattle.keep_loop.specs.Saving.{StandsForSome};
ghost use Rattle.keep_loop.specs.KeepingOn.{ServesAndKeeps};
ghost use Rattle.keep_loop.specs.Marking.{HoldsWhole, MarksBeforeEnd, MarksRun, MarksMore, comes_to_end};
ghost use Rattle.keep_loop.specs.Looking.{AreFew, AfterLook, EndsByLook};
ghost use Rattle.keep_loop.specs.SavingOn.{BeginsAnew, MayBeShown, SavesShown, saver};

use crate::looking::look;
use crate::marking::mark_end;
use crate::saves_on::SavesOn;
use crate::{KeptOn, SaveCounts, Told};
use ads_outside::{End, Wire};
use ads_served::Served;
use persist_store::{Disk, Store};
use serve_loop::{LoopEnd, serve_beside};
use std::alloc::Global;
use std::thread::Threads;

/// Serves a wire as `serve` does. After each so manieth turn with a tick and at the end, but where memory ended it, the body
/// of what is served is saved where it differs from the one that stands, or nothing stands. Where a save fails, memory is
/// wanting for it or the body is over the limit, that is told and counted, and serving goes on: the next look opens the
/// store again in the file of a name, and what it finds there stands.
pub fn keep_on<T: Threads + Sync, W: Wire, M: Served, D: Disk, N: Told<M> + Drop>(
    rt: &T,
    alloc: Global,
    served: &mut M,
    wire: &mut W,
    store: Store,
    disk: &mut D,
    name: &str,
    told: N,
    every: u64,
    limit: u64,
) -> KeptOn
    requires some { StandsForSome (StandsOver (M.serves served.old) (W.state wire.old).history.opened) }
    requires ready { IsReady D.contents D.may_leave disk.old store }
    requires open { store.shut ≡ false }
    requires every { 1 ≤ every }
    requires few { limit + 1 < 2 ^ 64 }
    // The turns, the saves among the bodies of their moves, and what a stop at any moment leaves of them.
    ensures keeps { ServesAndKeeps result every M.body_of M.steps M.noted (M.serves served.old) (M.serves served.new)
        D.contents D.may_leave D.moment D.left_since disk.old disk.new store.standing (W.state wire.old) (W.state wire.new) limit }
    // Behind which moves of the wire each look stands, as may be told of the disk.
    ensures marks { (x : Standing M.World M.Client) → StandsOver (M.serves served.old) (W.state wire.old).history.opened x
        → (marks : List Mark) → D.marked disk.old marks
        → MarksMore (D.marked disk.new) marks (MarksRun (comes_to_end result.ended) every M.body_of M.steps x.running.state
        (HoldsWhole result.counts (D.contents disk.old) store.standing) (W.state wire.old).history (W.state wire.new).history) }
    ensures last { (result.last ≡ None → result.ended ≡ End.Memory) × (result.ended ≡ End.Memory → result.last ≡ None) }
    ensures untold { D.contents disk.old ≡ None → D.contents disk.new ≡ None }
    ensures kept { W.kept wire.new ≡ W.kept wire.old }
    // Why it failed or ended.
    ensures failed { 0 < result.counts.failed → Rose (D.fault_count disk.old) (D.fault_count disk.new) }
    ensures last_failed { result.last ≡ Some save.Failed → 0 < result.counts.failed }
    ensures named { OpensOnly (D.names disk.old) (D.names disk.new) name.now }
    ensures later { D.fault_count disk.old ≤ D.fault_count disk.new }
    ensures wire_later { (W.state wire.old).faults ≤ (W.state wire.new).faults }
    ensures wanted { (W.state wire.old).wants ≤ (W.state wire.new).wants }
    ensures memory { result.ended ≡ End.Memory → WasWanting (M.has_failed served.new) (W.state wire.old) (W.state wire.new) }
{
    let mut saves = SavesOn {
        store,
        name,
        told,
        every,
        left: every - 1,
        counts: SaveCounts::nothing(),
    };
    let kept = keep_looks(rt, alloc, served, wire, &mut saves, disk, limit);
    mark_end(wire, disk, comes_to_end(kept.ended));
    kept
}

// Whether a run came to its end.
fn comes_to_end(ended: End) -> bool
    ensures { result ≡ comes_to_end ended }
{
    match ended {
        End::Done | End::LinkFault | End::Budget => true,
        End::Memory => false,
    }
}

// The turns and the looks of a run, whose end is not marked yet.
fn keep_looks<T: Threads + Sync, W: Wire, M: Served, D: Disk, N: Told<M> + Drop>(
    rt: &T,
    alloc: Global,
    served: &mut M,
    wire: &mut W,
    saves: &mut SavesOn<N>,
    disk: &mut D,
    limit: u64,
) -> KeptOn
    requires some { StandsForSome (StandsOver (M.serves served.old) (W.state wire.old).history.opened) }
    requires begins { BeginsAnew D.contents D.may_leave D.moment D.left_since D.marked D.names D.fault_count disk.old
        (saver saves.old.store saves.old.every saves.old.left saves.old.counts saves.old.name.now) }
    requires ready { MayBeShown D.contents D.may_leave limit disk.old
        (saver saves.old.store saves.old.every saves.old.left saves.old.counts saves.old.name.now) }
    // The turns, the saves among the bodies of their moves, and what a stop at any moment leaves of them.
    ensures keeps { ServesAndKeeps result saves.old.every M.body_of M.steps M.noted (M.serves served.old) (M.serves served.new)
        D.contents D.may_leave D.moment D.left_since disk.old disk.new saves.old.store.standing (W.state wire.old) (W.state wire.new) limit }
    ensures marks { (x : Standing M.World M.Client) → StandsOver (M.serves served.old) (W.state wire.old).history.opened x
        → (marks : List Mark) → D.marked disk.old marks
        → MarksMore (D.marked disk.new) marks (MarksBeforeEnd (comes_to_end result.ended) saves.old.every M.body_of M.steps x.running.state
        (HoldsWhole result.counts (D.contents disk.old) saves.old.store.standing) (D.contents disk.new) (W.state wire.old).history
        (W.state wire.new).history) }
    ensures last { (result.last ≡ None → result.ended ≡ End.Memory) × (result.ended ≡ End.Memory → result.last ≡ None) }
    ensures untold { D.contents disk.old ≡ None → D.contents disk.new ≡ None }
    ensures kept { W.kept wire.new ≡ W.kept wire.old }
    // Why it failed or ended.
    ensures failed { 0 < result.counts.failed → Rose (D.fault_count disk.old) (D.fault_count disk.new) }
    ensures last_failed { result.last ≡ Some save.Failed → 0 < result.counts.failed }
    ensures named { OpensOnly (D.names disk.old) (D.names disk.new) saves.old.name.now }
    ensures later { D.fault_count disk.old ≤ D.fault_count disk.new }
    ensures wire_later { (W.state wire.old).faults ≤ (W.state wire.new).faults }
    ensures wanted { (W.state wire.old).wants ≤ (W.state wire.new).wants }
    ensures memory { result.ended ≡ End.Memory → WasWanting (M.has_failed served.new) (W.state wire.old) (W.state wire.new) }
{
    let ended = serve_saving(rt, alloc, served, wire, saves, disk, limit);
    if comes_to_end(ended) {
        look_last::<M, D, N>(alloc, served, saves, disk, ended)
    } else {
        KeptOn {
            ended,
            last: None,
            counts: saves.counts,
        }
    }
}

// The turns of a run, with the saver beside them. It ends none.
fn serve_saving<T: Threads + Sync, W: Wire, M: Served, D: Disk, N: Told<M> + Drop>(
    rt: &T,
    alloc: Global,
    served: &mut M,
    wire: &mut W,
    saves: &mut SavesOn<N>,
    disk: &mut D,
    limit: u64,
) -> End
    requires some { StandsForSome (StandsOver (M.serves served.old) (W.state wire.old).history.opened) }
    requires ready { MayBeShown D.contents D.may_leave limit disk.old
        (saver saves.old.store saves.old.every saves.old.left saves.old.counts saves.old.name.now) }
    ensures serve { AfterLoop (loop.Ended result) M.body_of M.steps M.noted (M.serves served.old) (M.serves served.new) (W.state wire.old)
        (W.state wire.new) limit (λ (kept : Unit {0}) (looks : List Look). SavesShown D.contents D.may_leave D.moment D.left_since D.marked D.names
        D.fault_count disk.old disk.new (saver saves.old.store saves.old.every saves.old.left saves.old.counts saves.old.name.now)
        (saver saves.new.store saves.new.every saves.new.left saves.new.counts saves.new.name.now) looks) }
    ensures ready { MayBeShown D.contents D.may_leave 0 disk.new
        (saver saves.new.store saves.new.every saves.new.left saves.new.counts saves.new.name.now) }
    ensures kept { W.kept wire.new ≡ W.kept wire.old }
    ensures wire_later { (W.state wire.old).faults ≤ (W.state wire.new).faults }
    ensures wanted { (W.state wire.old).wants ≤ (W.state wire.new).wants }
    ensures memory { result ≡ End.Memory → WasWanting (M.has_failed served.new) (W.state wire.old) (W.state wire.new) }
{
    match serve_beside(rt, alloc, served, wire, saves, disk, limit) {
        LoopEnd::Ended(how) => how,
        LoopEnd::Stopped => unreachable!(),
    }
}

// The look at the end of a run whose turns ended so.
fn look_last<M: Served, D: Disk, N: Told<M> + Drop>(
    alloc: Global,
    served: &M,
    saves: &mut SavesOn<N>,
    disk: &mut D,
    ended: End,
) -> KeptOn
    requires some { StandsForSome (M.serves served.now) }
    requires ready { IsReady D.contents D.may_leave disk.old saves.old.store }
    requires few { AreFew saves.old.counts (2 ^ 64 - 2) }
    ensures ends { EndsByLook result ended saves.old.counts (λ by. (x : Standing M.World M.Client) → M.serves served.now x
        → AfterLook by (M.body_of x.running.state.world) D.contents D.may_leave D.moment D.left_since disk.old disk.new
        saves.old.store saves.new.store) }
    ensures ready { IsReady D.contents D.may_leave disk.new saves.new.store }
    ensures untold { D.contents disk.old ≡ None → D.contents disk.new ≡ None }
    ensures named { OpensOnly (D.names disk.old) (D.names disk.new) saves.old.name.now }
    ensures marks { MarksStay D.marked disk.old disk.new }
    ensures later { D.fault_count disk.old ≤ D.fault_count disk.new }
    ensures failed { 0 < result.counts.failed → (0 < saves.old.counts.failed) ⊎ Rose (D.fault_count disk.old) (D.fault_count disk.new) }
    ensures last_failed { result.last ≡ Some save.Failed → 0 < result.counts.failed }
{
    let became = look::<M, D, N>(
        alloc,
        served,
        &mut saves.store,
        disk,
        saves.name,
        &mut saves.told,
    );
    KeptOn {
        ended,
        last: Some(became),
        counts: saves.counts.after(became),
    }
}

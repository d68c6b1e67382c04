//! The play of a script on a machine whose world holds a body text, over an open store.

ghost use Rattle.std.specs.Prelude.{◌≡◌, ◌≤◌, ◌<◌, ◌+◌, ◌^◌, List, [], false, None, length, IfOk, IfSome, IfNone};
ghost use Rattle.ads_outside.specs.Rose.{Rose};
ghost use Rattle.ads_served.specs.Standing.{Standing};
ghost use Rattle.persist_store.specs.Marks.{Mark};
ghost use Rattle.persist_store.specs.Store.{IsReady, body_of};
ghost use Rattle.replay_script.specs.Fresh.{OpenNew};
ghost use Rattle.replay_script.specs.Playing.{IsUnused};
ghost use Rattle.keep_loop.specs.Marking.{MarksMore};
ghost use Rattle.keep_loop.specs.Saving.{LeavesEach};
ghost use Rattle.keep_play.specs.KeptMarks.{MarksScript};
ghost use Rattle.keep_play.specs.KeptScript.{ServesUnused, StandsAfter, EndsPlay, saves_of_script};

use crate::played::Played;
use ads_base::NoMemory;
use ads_served::Served;
use keep_loop::{KeepEnd, keep_turns};
use persist_store::{Disk, Store};
use replay_script::{Script, ScriptWire};
use std::alloc::Global;
use std::thread::Threads;

/// Plays a script, whose lines open each connection once, on what is served, and saves its body after each tick and at
/// the end, where it differs from the one that stands, or nothing stands.
pub(crate) fn keep_script<T: Threads + Sync, M: Served, D: Disk>(
    rt: &T,
    alloc: Global,
    served: &mut M,
    script: Script,
    store: Store,
    disk: &mut D,
) -> Result<Played, NoMemory>
    requires new { OpenNew [] script }
    requires some { ServesUnused (M.serves served.old) }
    requires ready { IsReady D.contents D.may_leave disk.old store }
    requires open { store.shut ≡ false }
    ensures ends { IfOk result (λ played. (x : Standing M.World M.Client) → M.serves served.old x → IsUnused x
        → EndsPlay played M.steps M.noted (M.serves served.new) x script store.standing
        (saves_of_script M.body_of M.steps x.running.state script (body_of store))
        (StandsAfter D.contents D.may_leave disk.old disk.new store.standing)
        ((marks : List Mark) → D.marked disk.old marks → MarksMore (D.marked disk.new) marks
        (MarksScript M.body_of M.steps x.running.state script (D.contents disk.old) store.standing))) }
    ensures left { (x : Standing M.World M.Client) → M.serves served.old x → IsUnused x
        → LeavesEach D.contents D.moment D.left_since disk.old disk.new store.standing
        (saves_of_script M.body_of M.steps x.running.state script (body_of store)) }
    ensures untold { D.contents disk.old ≡ None → D.contents disk.new ≡ None }
    ensures names { D.names disk.new ≡ D.names disk.old }
    ensures later { D.fault_count disk.old ≤ D.fault_count disk.new }
    ensures store_fault { IfOk result (λ played. played ≡ Played.StoreFault
        → Rose (D.fault_count disk.old) (D.fault_count disk.new)) }
{
    let Some(limit) = limit_of(&script) else {
        return Err(NoMemory);
    };
    let mut wire = ScriptWire::new(alloc, script);
    let ended = keep_turns(rt, alloc, served, &mut wire, store, disk, 1, limit);
    let log = wire.into_log();
    match ended {
        KeepEnd::Done(saved) => Ok(Played::Done(log, saved)),
        KeepEnd::StoreFault => Ok(Played::StoreFault),
        KeepEnd::StoreLimit => Ok(Played::StoreLimit),
        KeepEnd::Memory => Err(NoMemory),
        KeepEnd::Budget(_) => unreachable!(),
        KeepEnd::LinkFault(_) => unreachable!(),
    }
}

// One more than the lines, so that the loop ends where the script does. No memory holds so many lines that this has
// no number, or is the last one.
fn limit_of(script: &Script) -> Option<u64>
    ensures one_more { IfSome result (λ limit. limit ≡ length script.now + 1) }
    ensures few { IfSome result (λ limit. limit + 1 < 2 ^ 64) }
    ensures too_many { IfNone result (2 ^ 64 ≤ length script.now + 2) }
{
    let lines = script.as_slice().len() as u64;
    if lines < u64::MAX - 1 {
        Some(lines + 1)
    } else {
        None
    }
}

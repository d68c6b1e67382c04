//! The play of a script over a store.

ghost use Rattle.std.specs.Prelude.{◌≡◌, ◌≤◌, ◌<◌, ◌^◌, List, [], false, None, length, IfOk};
ghost use Rattle.signals.specs.Wave.{Wave};
ghost use Rattle.spec_plant.specs.Accepted.{IsAccepted};
ghost use Rattle.spec_plant.specs.Description as described;
ghost use Rattle.type_layout.specs.Descriptions.{description_of};
ghost use Rattle.persist_store.specs.Disk.{OpensOnce};
ghost use Rattle.persist_store.specs.Store.{IsReady, body_of};
ghost use Rattle.replay_script.specs.Fresh.{OpenNew};
ghost use Rattle.server_core.specs.Serves.{StandsAt};
ghost use Rattle.keep_loop.specs.Saving.{LeavesEach};
ghost use Rattle.keep_play.specs.KeptDisk.{disk_used};
ghost use Rattle.keep_play.specs.KeptMarks.{AllMarked, MarkedOver};
ghost use Rattle.keep_play.specs.KeptPlay.{PlaysOverStore, EndsSo, EndsKept};
ghost use Rattle.keep_play.specs.KeptSaves.{saves_over, saves_of_play, saved_text, kept_text};
ghost use Rattle.keep_play.specs.KeptScript.{ServesUnused};
ghost use Rattle.keep_play.specs.Begun.{begun};

use crate::KeptPlay;
use crate::played::Played;
use crate::playing::keep_script;
use crate::texts::text_of;
use ads_base::NoMemory;
use persist_store::{Disk, Store, StoreOpen};
use replay_script::Script;
use server_core::{Core, Sources};
use std::alloc::Global;
use std::thread::Threads;
use stored_values::with_stored;
use type_layout::Description;

/// Plays a script, whose lines open each connection once, on the server of an accepted description that begins with what
/// the store in the file of a name holds; after each tick and at the end it is saved what the persistent symbols hold,
/// where that differs from what stands, or nothing stands.
pub fn keep_play<T: Threads + Sync, D: Disk, G: Sources>(
    rt: &T,
    alloc: Global,
    description: Description,
    signals: G,
    script: Script,
    store: &str,
    disk: &mut D,
) -> Result<KeptPlay, NoMemory>
    requires new { OpenNew [] script }
    requires few { length (G.waves signals) < 2 ^ 32 }
    requires accepted { IsAccepted (description_of description) (length (G.waves signals)) }
    ensures plays { PlaysOverStore (description_of description) (G.waves signals) script
        (disk_used D.contents D.may_leave D.moment D.left_since D.marked D.fault_count disk.old disk.new)
        (EndsKept (description_of description) (G.waves signals) script
        (disk_used D.contents D.may_leave D.moment D.left_since D.marked D.fault_count disk.old disk.new) result) }
    ensures untold { D.contents disk.old ≡ None → D.contents disk.new ≡ None }
    ensures named { OpensOnce result (D.names disk.old) (D.names disk.new) store.now }
    ensures later { D.fault_count disk.old ≤ D.fault_count disk.new }
{
    match Store::open(alloc, disk, store) {
        Err(e) => Err(e),
        Ok(StoreOpen::Failed) => Ok(KeptPlay::StoreFault),
        Ok(StoreOpen::Ready(opened)) => {
            play_opened(rt, alloc, description, signals, script, opened, disk)
        }
    }
}

// The play over an open store.
fn play_opened<T: Threads + Sync, D: Disk, G: Sources>(
    rt: &T,
    alloc: Global,
    description: Description,
    signals: G,
    script: Script,
    store: Store,
    disk: &mut D,
) -> Result<KeptPlay, NoMemory>
    requires new { OpenNew [] script }
    requires few { length (G.waves signals) < 2 ^ 32 }
    requires accepted { IsAccepted (description_of description) (length (G.waves signals)) }
    requires ready { IsReady D.contents D.may_leave disk.old store }
    requires open { store.shut ≡ false }
    ensures ends { IfOk result (λ end. EndsSo (kept_text (description_of description) (G.waves signals) script store.standing)
        (AllMarked (description_of description) (G.waves signals) script
        (disk_used D.contents D.may_leave D.moment D.left_since D.marked D.fault_count disk.old disk.new) store.standing)
        (disk_used D.contents D.may_leave D.moment D.left_since D.marked D.fault_count disk.old disk.new) end store.standing
        (saves_of_play (description_of description) (G.waves signals) script store.standing)) }
    ensures left { LeavesEach D.contents D.moment D.left_since disk.old disk.new store.standing
        (saves_of_play (description_of description) (G.waves signals) script store.standing) }
    ensures untold { D.contents disk.old ≡ None → D.contents disk.new ≡ None }
    ensures names { D.names disk.new ≡ D.names disk.old }
    ensures later { D.fault_count disk.old ≤ D.fault_count disk.new }
{
    let stored = match with_stored(alloc, description, store.body()) {
        Ok(stored) => stored,
        Err(e) => return Err(e),
    };
    let mut core = match Core::build(alloc, stored, signals) {
        Ok(core) => core,
        Err(e) => return Err(e),
    };
    play_core(rt, alloc, &mut core, script, store, disk)
}

// The play on a core, before any move of it.
fn play_core<T: Threads + Sync, D: Disk, G: Sources>(
    rt: &T,
    alloc: Global,
    core: &mut Core<G>,
    script: Script,
    store: Store,
    disk: &mut D,
) -> Result<KeptPlay, NoMemory>
    requires new { OpenNew [] script }
    requires some { ServesUnused (StandsAt core.old) }
    requires ready { IsReady D.contents D.may_leave disk.old store }
    requires open { store.shut ≡ false }
    ensures ends { IfOk result (λ end. (d : described.Description) (waves : List Wave) → StandsAt core.old (begun d waves)
        → EndsSo (saved_text d waves script (length (saves_over d waves script (body_of store))))
        (MarkedOver d waves script (disk_used D.contents D.may_leave D.moment D.left_since D.marked D.fault_count disk.old disk.new)
        store.standing)
        (disk_used D.contents D.may_leave D.moment D.left_since D.marked D.fault_count disk.old disk.new) end store.standing
        (saves_over d waves script (body_of store))) }
    ensures left { (d : described.Description) (waves : List Wave) → StandsAt core.old (begun d waves)
        → LeavesEach D.contents D.moment D.left_since disk.old disk.new store.standing
        (saves_over d waves script (body_of store)) }
    ensures untold { D.contents disk.old ≡ None → D.contents disk.new ≡ None }
    ensures names { D.names disk.new ≡ D.names disk.old }
    ensures later { D.fault_count disk.old ≤ D.fault_count disk.new }
{
    match keep_script(rt, alloc, core, script, store, disk) {
        Err(e) => Err(e),
        Ok(Played::StoreFault) => Ok(KeptPlay::StoreFault),
        Ok(Played::StoreLimit) => Ok(KeptPlay::StoreLimit),
        Ok(Played::Done(log, saved)) => match text_of(alloc, core, &log, saved) {
            Err(e) => Err(e),
            Ok(text) => Ok(KeptPlay::Done(text)),
        },
    }
}

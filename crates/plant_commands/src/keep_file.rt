//! `keep`: a script is played on the description of a file, and what its persistent symbols hold is kept in a store.

ghost use Rattle.std.specs.Prelude.{◌<◌, ◌^◌, ◌≡◌, [], length};
ghost use Rattle.ads_outside.specs.Rose.{Rose};
ghost use Rattle.spec_plant.specs.Accepted.{IsAccepted};
ghost use Rattle.type_layout.specs.Descriptions.{description_of};
ghost use Rattle.replay_script.specs.Fresh.{OpenNew};
ghost use Rattle.run_tasks.specs.BeforeRun.{IsBeforeRun};
ghost use Rattle.plant_commands.specs.Keeping.{KeepsBy};
ghost use Rattle.plant_commands.specs.Keeping.{EndsKeeping};
ghost use Rattle.run_tasks.specs.KeepAsked.{keeping};
ghost use Rattle.plant_commands.specs.FileOutcomes.{IsOfKeeping, PrintsPlay};
ghost use Rattle.run_tasks.specs.Openings.{OpensOne};
ghost use Rattle.run_tasks.specs.Readings.{OverFiles, ReadsBoth};
ghost use Rattle.keep_play.specs.KeptDisk.{disk_used};
ghost use Rattle.run_tasks.specs.Verdict.{over_store, verdict_of_both};

use crate::scripted::{Scripted, read_both};
use ads_base::NoMemory;
use ads_outside::{Files, Sink};
use cli_words::Text;
use keep_play::{KeptPlay, keep_play};
use persist_store::Disk;
use run_tasks::{Status, end_without_memory, print_and_end, print_line, print_outcome};
use server_core::Sources;
use std::alloc::Global;
use std::thread::Threads;

/// Plays a script on the server of a description, over the store in the file of a name. The store is opened only where the
/// description is accepted and the script is in the grammar.
pub fn keep<T: Threads + Sync, F: Files, S: Sink, D: Disk, G: Sources>(
    rt: &T,
    alloc: Global,
    description: &Text,
    script: &Text,
    store: &Text,
    files: &mut F,
    out: &mut S,
    disk: &mut D,
    signals: G,
) -> Status
    requires few { length (G.waves signals) < 2 ^ 32 }
    ensures ends { OverFiles (F.state files.old).held (λ first second.
        KeepsBy (verdict_of_both (length (G.waves signals)) (over_store (G.waves signals)) description.now script.now first second)
        (Rose (F.state files.old).faults (F.state files.new).faults) result (S.state out.old) (S.state out.new)
        (disk_used D.contents D.may_leave D.moment D.left_since D.marked D.fault_count disk.old disk.new)) }
    ensures reads { ReadsBoth result (F.state files.old).names (F.state files.new).names description.now script.now }
    ensures held { (F.state files.new).held ≡ (F.state files.old).held }
    ensures read_fault { result ≡ Status.ReadFault → Rose (F.state files.old).faults (F.state files.new).faults }
    ensures before_run { IsBeforeRun result → disk.new ≡ disk.old }
    ensures opens { OpensOne result (D.names disk.old) (D.names disk.new) store.now }
{
    match read_both(alloc, description, script, signals.count() as u32, files) {
        Err(NoMemory) => end_without_memory(out),
        Ok(Err(told)) => print_outcome(out, told),
        Ok(Ok(both)) => keep_both(rt, alloc, both, store, out, disk, signals),
    }
}

// The play of a script on a description, over the store, and what is printed of it.
fn keep_both<T: Threads + Sync, S: Sink, D: Disk, G: Sources>(
    rt: &T,
    alloc: Global,
    both: Scripted,
    store: &Text,
    out: &mut S,
    disk: &mut D,
    signals: G,
) -> Status
    requires new { OpenNew [] both.script }
    requires few { length (G.waves signals) < 2 ^ 32 }
    requires accepted { IsAccepted (description_of both.description) (length (G.waves signals)) }
    ensures ends { EndsKeeping (keeping (description_of both.description) (G.waves signals) both.script) result
        (S.state out.old) (S.state out.new) (disk_used D.contents D.may_leave D.moment D.left_since D.marked D.fault_count disk.old disk.new) }
    ensures status { IsOfKeeping result }
    ensures opens { OpensOne result (D.names disk.old) (D.names disk.new) store.now }
{
    let Scripted {
        description,
        script,
    } = both;
    let played = keep_play(
        rt,
        alloc,
        description,
        signals,
        script,
        store.as_str(),
        disk,
    );
    print_kept(alloc, played, out)
}

// The text of a play, or the line of what ended it.
fn print_kept<S: Sink>(alloc: Global, played: Result<KeptPlay, NoMemory>, out: &mut S) -> Status
    ensures prints { PrintsPlay played result (S.state out.old) (S.state out.new) }
    ensures status { IsOfKeeping result }
{
    match played {
        Ok(KeptPlay::Done(text)) => print_and_end(out, text.as_slice(), Status::Done),
        Ok(KeptPlay::StoreFault) => print_line(alloc, Status::StoreFault, out),
        Ok(KeptPlay::StoreLimit) => print_line(alloc, Status::StoreLimit, out),
        Err(NoMemory) => end_without_memory(out),
    }
}

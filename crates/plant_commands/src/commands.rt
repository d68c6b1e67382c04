//! What a task leads to that asks its files alone.

ghost use Rattle.std.specs.Prelude.{◌<◌, ◌^◌, ◌≡◌, ◌∷◌, [], length, true, IfOk, OnErr};
ghost use Rattle.ads_outside.specs.FilesState.{ReadsAll, ReadsSome};
ghost use Rattle.ads_outside.specs.Named.{bytes_of};
ghost use Rattle.ads_outside.specs.Rose.{Rose};
ghost use Rattle.run_tasks.specs.BuiltIn.{built_in};
ghost use Rattle.run_tasks.specs.EndsOr.{PrintsBy};
ghost use Rattle.run_tasks.specs.Fits.{FitsFileTask};
ghost use Rattle.plant_commands.specs.Migrated.{HasMigratedFile, IsMigrationOf};
ghost use Rattle.run_tasks.specs.Verdict.{over_server, verdict_of_file_task, verdict_of_file, verdict_of_script};
ghost use Rattle.run_tasks.specs.Readings.{OverFile, OverFiles, ReadsFilesOf, asks_no_file};
ghost use Rattle.run_tasks.specs.Outcomes.{Decides};
ghost use Rattle.plant_commands.specs.FileOutcomes.{IsOfFileTask};

use crate::check::check;
use crate::load::load;
use crate::migrate::migrate_file;
use crate::replay::{relay, replay};
use crate::selftest::selftest;
use ads_base::NoMemory;
use ads_outside::{Files, Sink};
use cli_words::Text;
use run_tasks::{FileTask, Outcome, Status, bytes_of_file, end_without_memory, print_outcome};
use server_core::Sources;
use std::alloc::Global;
use std::thread::Threads;

/// The run of a task over its files, with these signals: its text is printed at its end.
pub fn print_file_task<T: Threads + Sync, F: Files, S: Sink, G: Sources>(
    rt: &T,
    alloc: Global,
    task: &FileTask,
    files: &mut F,
    out: &mut S,
    signals: G,
) -> Status
    requires few { length (G.waves signals) < 2 ^ 32 }
    requires fits { FitsFileTask task.now }
    ensures ends { OverFiles (F.state files.old).held (λ first second.
        PrintsBy (verdict_of_file_task (G.waves signals) task.now first second)
        (Rose (F.state files.old).faults (F.state files.new).faults) result (S.state out.old) (S.state out.new)) }
    ensures reads { ReadsFilesOf task.now result (F.state files.old).names (F.state files.new).names }
    ensures held { (F.state files.new).held ≡ (F.state files.old).held }
    ensures read_fault { result ≡ Status.ReadFault → Rose (F.state files.old).faults (F.state files.new).faults }
    ensures migrated { HasMigratedFile (length (G.waves signals)) task.now result (F.state files.old).held (S.state out.old) (S.state out.new) }
    ensures unread { asks_no_file task.now ≡ true → files.new ≡ files.old }
{
    match outcome_of_task(rt, alloc, task, signals, files) {
        Ok(outcome) => print_outcome(out, outcome),
        Err(NoMemory) => end_without_memory(out),
    }
}

// The outcome of a task over its files.
fn outcome_of_task<T: Threads + Sync, F: Files, G: Sources>(
    rt: &T,
    alloc: Global,
    task: &FileTask,
    signals: G,
    files: &mut F,
) -> Result<Outcome, NoMemory>
    requires few { length (G.waves signals) < 2 ^ 32 }
    requires fits { FitsFileTask task.now }
    ensures plain { IfOk result (λ o. IsOfFileTask o.status) }
    ensures decided { IfOk result (λ o. OverFiles (F.state files.old).held (λ first second.
        Decides (verdict_of_file_task (G.waves signals) task.now first second)
        (Rose (F.state files.old).faults (F.state files.new).faults) o)) }
    ensures reads { IfOk result (λ o. ReadsFilesOf task.now o.status (F.state files.old).names (F.state files.new).names) }
    ensures reads_some { OnErr result (ReadsFilesOf task.now Status.Memory (F.state files.old).names (F.state files.new).names) }
    ensures fault { IfOk result (λ o. o.status ≡ Status.ReadFault
        → Rose (F.state files.old).faults (F.state files.new).faults) }
    ensures held { (F.state files.new).held ≡ (F.state files.old).held }
    ensures migrated { IfOk result (λ o. IsMigrationOf (length (G.waves signals)) task.now o.status (F.state files.old).held o.text) }
    ensures unread { asks_no_file task.now ≡ true → files.new ≡ files.old }
{
    match task {
        FileTask::Selftest { script } => selftest_file(rt, alloc, script, signals, files),
        FileTask::Check { description } => check(alloc, description, signals.count() as u32, files),
        FileTask::Replay {
            description,
            script,
        } => replay(rt, alloc, description, script, signals, files),
        FileTask::Relay {
            description,
            script,
        } => relay(
            rt,
            alloc,
            description,
            script,
            signals.count() as u32,
            files,
        ),
        FileTask::Load { n } => load(rt, alloc, *n as u32, signals),
        FileTask::Migrate { description } => migrate_file(
            alloc,
            description,
            signals.count() as u32,
            files,
        ),
    }
}

// `selftest` over its file.
#[tactic(auto, using(run_tasks::proofs::ReadLemmas::some_of_one))]
fn selftest_file<T: Threads + Sync, F: Files, G: Sources>(
    rt: &T,
    alloc: Global,
    script: &Text,
    signals: G,
    files: &mut F,
) -> Result<Outcome, NoMemory>
    requires few { length (G.waves signals) < 2 ^ 32 }
    ensures decided { IfOk result (λ o. OverFile (F.state files.old).held (λ held.
        Decides (verdict_of_file (verdict_of_script (over_server (G.waves signals) built_in)) (bytes_of held script.now))
        (Rose (F.state files.old).faults (F.state files.new).faults) o)) }
    ensures plain { IfOk result (λ o. IsOfFileTask o.status) }
    ensures reads { IfOk result (λ o. ReadsAll (F.state files.old).names (F.state files.new).names (script.now ∷ [])) }
    ensures reads_some { OnErr result (ReadsSome (F.state files.old).names (F.state files.new).names (script.now ∷ [])) }
    ensures fault { IfOk result (λ o. o.status ≡ Status.ReadFault
        → Rose (F.state files.old).faults (F.state files.new).faults) }
    ensures held { (F.state files.new).held ≡ (F.state files.old).held }
{
    match bytes_of_file(alloc, files, script) {
        Err(e) => Err(e),
        Ok(Err(told)) => Ok(told),
        Ok(Ok(bytes)) => match selftest(rt, alloc, signals, bytes.as_slice()) {
            Err(e) => Err(e),
            Ok(outcome) => Ok(outcome),
        },
    }
}

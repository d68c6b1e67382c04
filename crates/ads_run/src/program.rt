//! The program's run: the words of its process, and the signals that it has.

ghost use Rattle.std.specs.Prelude.{◌≡◌, drop, false, length, map, string_bytes, true, Err, IfOk, IsErr, List, None, OnErr};
ghost use Rattle.ads_outside.specs.Rose.{Rose};
ghost use Rattle.spec_plant.specs.Description as plant;
ghost use Rattle.spec_machine.specs.ScriptLine.{ScriptLine};
ghost use Rattle.spec_relay.specs.RelayPromises.{RelayPlayKeepsPromises};
ghost use Rattle.run_tasks.specs.BeforeRun.{IsBeforeRun};
ghost use Rattle.run_tasks.specs.Ending.{line_alone};
ghost use Rattle.ads_run.specs.Ends.{RunsBy};
ghost use Rattle.plant_commands.specs.Migrated.{HasMigrated};
ghost use Rattle.run_tasks.specs.Prints.{PrintsEnding};
ghost use Rattle.ads_run.specs.Program.{RunsWith, words_behind_name};
ghost use Rattle.ads_run.specs.ProgramWaves.{program_waves};
ghost use Rattle.plant_commands.specs.Promises.{PlayKeepsPromises};
ghost use Rattle.run_tasks.specs.Openings.{OpensStore, OpensTable};
ghost use Rattle.run_tasks.specs.Readings.{OverFiles, ReadsFiles, asks_disk, asks_keeper, asks_link, is_service, reads_no_file};
ghost use Rattle.client_commands.specs.RecordRows.{AddsRows};
ghost use Rattle.run_tasks.specs.Tasks.{asked_task};
ghost use Rattle.ads_run.specs.Uses.{disk_used, uses};
ghost use Rattle.client_commands.specs.CallUses.{keeper_used, link_used};
ghost use Rattle.run_tasks.specs.Verdict.{verdict_of};

use crate::program_signals::ProgramSignals;
use crate::top_call::run;
use ads_base::NoMemory;
use ads_outside::{Files, Link, Sink, Wire};
use persist_store::Disk;
use run_tasks::{Status, end_without_memory};
use sample_store::Keeper;
use signals::Signal;
use std::alloc::Global;
use std::io::ErrorKind;
use std::thread::Threads;

/// `run` over the words of a process behind the program's name, with the signals that the program has: a ramp, a square and
/// a table. Words that could not be read are no command; where memory was wanting for them, that is told.
#[tactic(auto, using(client_commands::proofs::RecordedRows::adds_none))]
pub fn run_program<T: Threads + Sync, F: Files, W: Wire, L: Link, S: Sink, D: Disk, K: Keeper>(
    rt: &T,
    alloc: Global,
    words: Result<Vec<String>, ErrorKind>,
    files: &mut F,
    wire: &mut W,
    link: &mut L,
    out: &mut S,
    disk: &mut D,
    keeper: &mut K,
) -> Status
    ensures ends { OverFiles (F.state files.old).held (λ first second.
        RunsBy (verdict_of program_waves (words_behind_name words) first second) (Rose (F.state files.old).faults (F.state files.new).faults) result
        (uses (S.state out.old) (S.state out.new) (W.state wire.old).history (W.state wire.new).history
        (link_used L.tells L.state link.old link.new)
        (disk_used D.contents D.may_leave D.moment D.left_since D.marked D.fault_count disk.old disk.new)
        (keeper_used K.state keeper.old keeper.new))) }

    // The words: usage exactly where they are no command, want of memory and a failed writing aside.
    ensures unreadable { words ≡ Err ErrorKind.OutOfMemory → result ≡ Status.Memory }
    ensures usage { result ≡ Status.Usage → asked_task (words_behind_name words) ≡ None }
    ensures no_command { asked_task (words_behind_name words) ≡ None
        → PrintsEnding (line_alone Status.Usage) result (S.state out.old) (S.state out.new) }
    ensures unread { reads_no_file (asked_task (words_behind_name words)) ≡ true → files.new ≡ files.old }

    // The files that are read are those of the command, and stay as they are.
    ensures reads { ReadsFiles (asked_task (words_behind_name words)) result
        (F.state files.old).names (F.state files.new).names }
    ensures held { (F.state files.new).held ≡ (F.state files.old).held }

    // What is called is what the command is for, and nothing where the words, a file, the description or the script ends the run.
    ensures no_wire { is_service (asked_task (words_behind_name words)) ≡ false → wire.new ≡ wire.old }
    ensures no_link { asks_link (asked_task (words_behind_name words)) ≡ false → link.new ≡ link.old }
    ensures no_disk { asks_disk (asked_task (words_behind_name words)) ≡ false → disk.new ≡ disk.old }
    ensures no_keeper { asks_keeper (asked_task (words_behind_name words)) ≡ false → keeper.new ≡ keeper.old }
    ensures before_run { IsBeforeRun result
        → (wire.new ≡ wire.old) × (link.new ≡ link.old) × (disk.new ≡ disk.old) × (keeper.new ≡ keeper.old) }

    // The file of values and the table that are opened are those that the words name.
    ensures opens_store { OpensStore (asked_task (words_behind_name words)) result (D.names disk.old) (D.names disk.new) }
    ensures opens_table { OpensTable (asked_task (words_behind_name words)) result (K.state keeper.old).names (K.state keeper.new).names }

    // Rows of a table stay as they are: at most a million are put behind them, numbered on.
    ensures grows { AddsRows (K.state keeper.old).rows (K.state keeper.new).rows }

    // The causes of faults, and of what a service ends by.
    ensures read_fault { result ≡ Status.ReadFault → Rose (F.state files.old).faults (F.state files.new).faults }
    ensures write_fault { result ≡ Status.WriteFault → Rose (S.state out.old).faults (S.state out.new).faults }
    ensures store_fault { result ≡ Status.StoreFault → Rose (D.fault_count disk.old) (D.fault_count disk.new) }
    ensures keeper_fault { result ≡ Status.KeeperFault → Rose (K.state keeper.old).faults (K.state keeper.new).faults }

    // What `migrate` prints where it is done: the description under schema 2, of which the rules say the same.
    ensures migrated { HasMigrated (length program_waves) (asked_task (words_behind_name words)) result
        (F.state files.old).held (S.state out.old) (S.state out.new) }

    // What the log of a played script promises, whose text is printed: over any description, with these signals; and over its
    // relay.
    ensures promises { (d : plant.Description) (lines : List ScriptLine) → PlayKeepsPromises d program_waves lines }
    ensures relayed { (d : plant.Description) (lines : List ScriptLine) → RelayPlayKeepsPromises d lines }
{
    match run_signals(rt, alloc, words, files, wire, link, out, disk, keeper) {
        Ok(status) => status,
        Err(NoMemory) => end_without_memory(out),
    }
}

// The same. Nothing is called where memory is wanting for the words or the signals.
#[tactic(auto, using(client_commands::proofs::RecordedRows::adds_none))]
fn run_signals<T: Threads + Sync, F: Files, W: Wire, L: Link, S: Sink, D: Disk, K: Keeper>(
    rt: &T,
    alloc: Global,
    words: Result<Vec<String>, ErrorKind>,
    files: &mut F,
    wire: &mut W,
    link: &mut L,
    out: &mut S,
    disk: &mut D,
    keeper: &mut K,
) -> Result<Status, NoMemory>
    ensures runs { IfOk result (λ s. RunsWith program_waves (words_behind_name words) s (F.state files.old) (F.state files.new)
        (uses (S.state out.old) (S.state out.new) (W.state wire.old).history (W.state wire.new).history
        (link_used L.tells L.state link.old link.new)
        (disk_used D.contents D.may_leave D.moment D.left_since D.marked D.fault_count disk.old disk.new)
        (keeper_used K.state keeper.old keeper.new))) }
    ensures unreadable { words ≡ Err ErrorKind.OutOfMemory → IsErr result }
    ensures usage { IfOk result (λ s. s ≡ Status.Usage → asked_task (words_behind_name words) ≡ None) }
    ensures no_command { IfOk result (λ s. asked_task (words_behind_name words) ≡ None
        → PrintsEnding (line_alone Status.Usage) s (S.state out.old) (S.state out.new)) }
    ensures unread { reads_no_file (asked_task (words_behind_name words)) ≡ true → files.new ≡ files.old }
    ensures reads { IfOk result (λ s. ReadsFiles (asked_task (words_behind_name words)) s
        (F.state files.old).names (F.state files.new).names) }
    ensures held { (F.state files.new).held ≡ (F.state files.old).held }
    ensures no_wire { is_service (asked_task (words_behind_name words)) ≡ false → wire.new ≡ wire.old }
    ensures no_link { asks_link (asked_task (words_behind_name words)) ≡ false → link.new ≡ link.old }
    ensures no_disk { asks_disk (asked_task (words_behind_name words)) ≡ false → disk.new ≡ disk.old }
    ensures no_keeper { asks_keeper (asked_task (words_behind_name words)) ≡ false → keeper.new ≡ keeper.old }
    ensures before_run { IfOk result (λ s. IsBeforeRun s
        → (wire.new ≡ wire.old) × (link.new ≡ link.old) × (disk.new ≡ disk.old) × (keeper.new ≡ keeper.old)) }
    ensures opens_store { IfOk result (λ s. OpensStore (asked_task (words_behind_name words)) s (D.names disk.old) (D.names disk.new)) }
    ensures opens_table { IfOk result (λ s. OpensTable (asked_task (words_behind_name words)) s (K.state keeper.old).names (K.state keeper.new).names) }
    ensures grows { AddsRows (K.state keeper.old).rows (K.state keeper.new).rows }
    ensures read_fault { IfOk result (λ s. s ≡ Status.ReadFault → Rose (F.state files.old).faults (F.state files.new).faults) }
    ensures write_fault { IfOk result (λ s. s ≡ Status.WriteFault → Rose (S.state out.old).faults (S.state out.new).faults) }
    ensures store_fault { IfOk result (λ s. s ≡ Status.StoreFault → Rose (D.fault_count disk.old) (D.fault_count disk.new)) }
    ensures keeper_fault { IfOk result (λ s. s ≡ Status.KeeperFault → Rose (K.state keeper.old).faults (K.state keeper.new).faults) }
    ensures no_memory { OnErr result ((files.new ≡ files.old) × (wire.new ≡ wire.old) × (link.new ≡ link.old) × (out.new ≡ out.old)
        × (disk.new ≡ disk.old) × (keeper.new ≡ keeper.old)) }
{
    let all = words_read(alloc, words)?;
    let ProgramSignals {
        ramp,
        square,
        table,
    } = ProgramSignals::new(alloc)?;
    let mut signals: Vec<Box<dyn Signal>> = Vec::new(alloc);
    signals.push(Box::new(alloc, ramp)?)?;
    signals.push(Box::new(alloc, square)?)?;
    signals.push(Box::new(alloc, table)?)?;
    Ok(run(
        rt,
        alloc,
        behind_name(all.as_slice()),
        files,
        wire,
        link,
        out,
        disk,
        keeper,
        signals,
    ))
}

// The words of a process; none where one is no text.
fn words_read(alloc: Global, words: Result<Vec<String>, ErrorKind>) -> Result<Vec<String>, NoMemory>
    ensures words { IfOk result (λ all. map string_bytes (drop 1 all.items) ≡ words_behind_name words) }
    ensures unreadable { words ≡ Err ErrorKind.OutOfMemory → IsErr result }
{
    match words {
        Ok(all) => Ok(all),
        Err(kind) => {
            if kind == ErrorKind::OutOfMemory {
                Err(NoMemory)
            } else {
                Ok(Vec::new(alloc))
            }
        }
    }
}

// The words behind the program's name.
fn behind_name(all: &[String]) -> &[String]
    ensures { result.now ≡ drop 1 all.now }
{
    if all.is_empty() { all } else { &all[1..] }
}

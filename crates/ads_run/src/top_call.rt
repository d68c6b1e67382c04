//! The top call: a command, from its words to its status.

ghost use Rattle.std.specs.Prelude.{◌<◌, ◌^◌, ◌≡◌, length, List, None, Some, true, false, map, string_bytes};
ghost use Rattle.ads_outside.specs.Rose.{Rose};
ghost use Rattle.spec_plant.specs.Description as plant;
ghost use Rattle.spec_machine.specs.ScriptLine.{ScriptLine};
ghost use Rattle.spec_relay.specs.RelayPromises.{RelayPlayKeepsPromises};
ghost use Rattle.run_tasks.specs.BeforeRun.{IsBeforeRun};
ghost use Rattle.run_tasks.specs.Ending.{line_alone};
ghost use Rattle.ads_run.specs.Ends.{RunsBy};
ghost use Rattle.run_tasks.specs.Fits.{FitsTask};
ghost use Rattle.plant_commands.specs.Migrated.{HasMigrated};
ghost use Rattle.run_tasks.specs.Prints.{PrintsEnding};
ghost use Rattle.plant_commands.specs.Promises.{PlayKeepsPromises};
ghost use Rattle.run_tasks.specs.Openings.{OpensStore, OpensTable};
ghost use Rattle.run_tasks.specs.Readings.{OverFiles, ReadsFiles, asks_disk, asks_keeper, asks_link, is_service, reads_no_file};
ghost use Rattle.client_commands.specs.RecordRows.{AddsRows};
ghost use Rattle.run_tasks.specs.Tasks.{asked_task};
ghost use Rattle.ads_run.specs.Uses.{disk_used, uses};
ghost use Rattle.client_commands.specs.CallUses.{keeper_used, link_used};
ghost use Rattle.run_tasks.specs.Verdict.{verdict_of, verdict_of_task};

use ads_base::NoMemory;
use ads_outside::{Files, Link, Sink, Wire};
use client_commands::{ask, record};
use persist_store::Disk;
use plant_commands::{keep, print_file_task, serve, serve_relay};
use run_tasks::{Status, Task, USAGE_LINE, end_without_memory, print_and_end, task_asked};
use sample_store::Keeper;
use server_core::Sources;
use std::alloc::Global;
use std::thread::Threads;

/// Runs the command of some words over files, a wire, a link, a sink, a disk and a keeper, and says how it ended. A
/// description may name the signals, which are numbered from 0.
///
/// | status | comes |
/// |---|---|
/// | Done | the command ended, and of a service (`serve`, and `relay` with `--listen`) the wire; all that it prints is in the sink |
/// | Usage | the words are no command |
/// | BadDescription | the least broken rule of the description, and in it the least item; or it is no TOML document |
/// | BadScript | the script's first line off the grammar has this number |
/// | ReadFault | a file could not be read |
/// | WriteFault | the sink could not be written |
/// | LinkFault | the wire could not be started, or gave no further event; or the link failed |
/// | Budget | as many events were taken as a service was to take, or too many answers of the link were waited for |
/// | Refused | an answer to a request of a client had this AMS error or, that being 0, this result |
/// | BadPeer | a peer broke the protocol, or closed the connection before the call was over: what it did |
/// | Memory | memory was wanting |
/// | TimedOut | a request that was sent at the first moment had no answer at the second, 5 s later |
/// | TooLong | a file has more than 16,777,216 bytes |
/// | BadValue | the text of `set` is no value of the symbol |
/// | StoreFault | the disk failed |
/// | StoreLimit | a save is over a limit of the store, or the table that is recorded into has more rows than leave room |
/// | KeeperFault | the keeper failed |
///
/// Each status but Done, WriteFault and Memory prints its last line. Before it a service prints `listening` once the wire
/// is started, and its summary at Done and Budget, and a client command what its call prints; all else that ends with
/// another status than Done prints nothing else.
pub fn run<T: Threads + Sync, F: Files, W: Wire, L: Link, S: Sink, D: Disk, K: Keeper, G: Sources>(
    rt: &T,
    alloc: Global,
    words: &[String],
    files: &mut F,
    wire: &mut W,
    link: &mut L,
    out: &mut S,
    disk: &mut D,
    keeper: &mut K,
    signals: G,
) -> Status
    requires signals { length (G.waves signals) < 2 ^ 32 }
    // The status, all that is printed and what is left of all that is handed in, by the bytes that the files hold, the waves
    // of the signals, for a service the moves of the wire, which keep what a played script promises, for a client the answers
    // of the link, and for a play over a store what stood there; where the files are not told, by some bytes at each reading.
    ensures ends { OverFiles (F.state files.old).held (λ first second.
        RunsBy (verdict_of (G.waves signals) (map string_bytes words.now) first second) (Rose (F.state files.old).faults (F.state files.new).faults) result
        (uses (S.state out.old) (S.state out.new) (W.state wire.old).history (W.state wire.new).history
        (link_used L.tells L.state link.old link.new)
        (disk_used D.contents D.may_leave D.moment D.left_since D.marked D.fault_count disk.old disk.new)
        (keeper_used K.state keeper.old keeper.new))) }

    // The words: usage exactly where they are no command, want of memory and a failed writing aside.
    ensures usage { result ≡ Status.Usage → asked_task (map string_bytes words.now) ≡ None }
    ensures no_command { asked_task (map string_bytes words.now) ≡ None
        → PrintsEnding (line_alone Status.Usage) result (S.state out.old) (S.state out.new) }
    ensures unread { reads_no_file (asked_task (map string_bytes words.now)) ≡ true → files.new ≡ files.old }

    // The files that are read are those of the command, and stay as they are.
    ensures reads { ReadsFiles (asked_task (map string_bytes words.now)) result
        (F.state files.old).names (F.state files.new).names }
    ensures held { (F.state files.new).held ≡ (F.state files.old).held }

    // The wire is called by a service alone, and there only behind an accepted description; the link by a client's command
    // with `--to` alone; the disk by `keep` alone, the keeper by `record` alone. Nothing is called where the words, a file, the description or the
    // script ends the run.
    ensures no_wire { is_service (asked_task (map string_bytes words.now)) ≡ false → wire.new ≡ wire.old }
    ensures no_link { asks_link (asked_task (map string_bytes words.now)) ≡ false → link.new ≡ link.old }
    ensures no_disk { asks_disk (asked_task (map string_bytes words.now)) ≡ false → disk.new ≡ disk.old }
    ensures no_keeper { asks_keeper (asked_task (map string_bytes words.now)) ≡ false → keeper.new ≡ keeper.old }
    ensures before_run { IsBeforeRun result
        → (wire.new ≡ wire.old) × (link.new ≡ link.old) × (disk.new ≡ disk.old) × (keeper.new ≡ keeper.old) }

    // The file of values and the table that are opened are those that the words name.
    ensures opens_store { OpensStore (asked_task (map string_bytes words.now)) result (D.names disk.old) (D.names disk.new) }
    ensures opens_table { OpensTable (asked_task (map string_bytes words.now)) result (K.state keeper.old).names (K.state keeper.new).names }

    // Rows of a table stay as they are: at most a million are put behind them, numbered on.
    ensures grows { AddsRows (K.state keeper.old).rows (K.state keeper.new).rows }

    // The causes of faults, and of what a service ends by.
    ensures read_fault { result ≡ Status.ReadFault → Rose (F.state files.old).faults (F.state files.new).faults }
    ensures write_fault { result ≡ Status.WriteFault → Rose (S.state out.old).faults (S.state out.new).faults }
    ensures store_fault { result ≡ Status.StoreFault → Rose (D.fault_count disk.old) (D.fault_count disk.new) }
    ensures keeper_fault { result ≡ Status.KeeperFault → Rose (K.state keeper.old).faults (K.state keeper.new).faults }

    // What `migrate` prints where it is done: the description under schema 2, of which the rules say the same.
    ensures migrated { HasMigrated (length (G.waves signals)) (asked_task (map string_bytes words.now)) result
        (F.state files.old).held (S.state out.old) (S.state out.new) }

    // What the log of a played script promises, whose text is printed: over any description, with these signals; and over its
    // relay.
    ensures promises { (d : plant.Description) (lines : List ScriptLine) → PlayKeepsPromises d (G.waves signals) lines }
    ensures relayed { (d : plant.Description) (lines : List ScriptLine) → RelayPlayKeepsPromises d lines }
{
    let status = run_words(
        rt, alloc, words, files, wire, link, out, disk, keeper, signals,
    );
    status
}

// The run of the task that the words ask for.
#[tactic(auto, using(client_commands::proofs::RecordedRows::adds_none))]
fn run_words<
    T: Threads + Sync,
    F: Files,
    W: Wire,
    L: Link,
    S: Sink,
    D: Disk,
    K: Keeper,
    G: Sources,
>(
    rt: &T,
    alloc: Global,
    words: &[String],
    files: &mut F,
    wire: &mut W,
    link: &mut L,
    out: &mut S,
    disk: &mut D,
    keeper: &mut K,
    signals: G,
) -> Status
    requires signals { length (G.waves signals) < 2 ^ 32 }
    ensures ends { OverFiles (F.state files.old).held (λ first second.
        RunsBy (verdict_of (G.waves signals) (map string_bytes words.now) first second) (Rose (F.state files.old).faults (F.state files.new).faults) result
        (uses (S.state out.old) (S.state out.new) (W.state wire.old).history (W.state wire.new).history
        (link_used L.tells L.state link.old link.new)
        (disk_used D.contents D.may_leave D.moment D.left_since D.marked D.fault_count disk.old disk.new)
        (keeper_used K.state keeper.old keeper.new))) }
    ensures no_command { asked_task (map string_bytes words.now) ≡ None
        → PrintsEnding (line_alone Status.Usage) result (S.state out.old) (S.state out.new) }
    ensures unread { reads_no_file (asked_task (map string_bytes words.now)) ≡ true → files.new ≡ files.old }
    ensures reads { ReadsFiles (asked_task (map string_bytes words.now)) result
        (F.state files.old).names (F.state files.new).names }
    ensures held { (F.state files.new).held ≡ (F.state files.old).held }
    ensures no_wire { is_service (asked_task (map string_bytes words.now)) ≡ false → wire.new ≡ wire.old }
    ensures no_link { asks_link (asked_task (map string_bytes words.now)) ≡ false → link.new ≡ link.old }
    ensures no_disk { asks_disk (asked_task (map string_bytes words.now)) ≡ false → disk.new ≡ disk.old }
    ensures no_keeper { asks_keeper (asked_task (map string_bytes words.now)) ≡ false → keeper.new ≡ keeper.old }
    ensures before_run { IsBeforeRun result
        → (wire.new ≡ wire.old) × (link.new ≡ link.old) × (disk.new ≡ disk.old) × (keeper.new ≡ keeper.old) }
    ensures opens_store { OpensStore (asked_task (map string_bytes words.now)) result (D.names disk.old) (D.names disk.new) }
    ensures opens_table { OpensTable (asked_task (map string_bytes words.now)) result (K.state keeper.old).names (K.state keeper.new).names }
    ensures grows { AddsRows (K.state keeper.old).rows (K.state keeper.new).rows }
    ensures read_fault { result ≡ Status.ReadFault → Rose (F.state files.old).faults (F.state files.new).faults }
    ensures migrated { HasMigrated (length (G.waves signals)) (asked_task (map string_bytes words.now)) result
        (F.state files.old).held (S.state out.old) (S.state out.new) }
{
    match task_asked(alloc, words) {
        Ok(Some(task)) => run_task(
            rt, alloc, &task, files, wire, link, out, disk, keeper, signals,
        ),
        Ok(None) => print_and_end(out, USAGE_LINE, Status::Usage),
        Err(NoMemory) => end_without_memory(out),
    }
}

// The run of a task.
#[tactic(auto, using(client_commands::proofs::RecordedRows::adds_none))]
fn run_task<T: Threads + Sync, F: Files, W: Wire, L: Link, S: Sink, D: Disk, K: Keeper, G: Sources>(
    rt: &T,
    alloc: Global,
    task: &Task,
    files: &mut F,
    wire: &mut W,
    link: &mut L,
    out: &mut S,
    disk: &mut D,
    keeper: &mut K,
    signals: G,
) -> Status
    requires signals { length (G.waves signals) < 2 ^ 32 }
    requires fits { FitsTask (Some task.now) }
    ensures ends { OverFiles (F.state files.old).held (λ first second.
        RunsBy (verdict_of_task (G.waves signals) (Some task.now) first second) (Rose (F.state files.old).faults (F.state files.new).faults) result
        (uses (S.state out.old) (S.state out.new) (W.state wire.old).history (W.state wire.new).history
        (link_used L.tells L.state link.old link.new)
        (disk_used D.contents D.may_leave D.moment D.left_since D.marked D.fault_count disk.old disk.new)
        (keeper_used K.state keeper.old keeper.new))) }
    ensures reads { ReadsFiles (Some task.now) result (F.state files.old).names (F.state files.new).names }
    ensures held { (F.state files.new).held ≡ (F.state files.old).held }
    ensures no_wire { is_service (Some task.now) ≡ false → wire.new ≡ wire.old }
    ensures no_link { asks_link (Some task.now) ≡ false → link.new ≡ link.old }
    ensures no_disk { asks_disk (Some task.now) ≡ false → disk.new ≡ disk.old }
    ensures no_keeper { asks_keeper (Some task.now) ≡ false → keeper.new ≡ keeper.old }
    ensures before_run { IsBeforeRun result
        → (wire.new ≡ wire.old) × (link.new ≡ link.old) × (disk.new ≡ disk.old) × (keeper.new ≡ keeper.old) }
    ensures opens_store { OpensStore (Some task.now) result (D.names disk.old) (D.names disk.new) }
    ensures opens_table { OpensTable (Some task.now) result (K.state keeper.old).names (K.state keeper.new).names }
    ensures grows { AddsRows (K.state keeper.old).rows (K.state keeper.new).rows }
    ensures read_fault { result ≡ Status.ReadFault → Rose (F.state files.old).faults (F.state files.new).faults }
    ensures migrated { HasMigrated (length (G.waves signals)) (Some task.now) result
        (F.state files.old).held (S.state out.old) (S.state out.new) }
    ensures unread { reads_no_file (Some task.now) ≡ true → files.new ≡ files.old }
{
    match task {
        Task::OfFiles(task) => print_file_task(rt, alloc, task, files, out, signals),
        Task::Serve {
            description,
            listen,
            events,
        } => serve(
            rt,
            alloc,
            description,
            listen,
            *events,
            files,
            wire,
            out,
            signals,
        ),
        Task::RelayServe {
            description,
            listen,
            events,
        } => serve_relay(
            rt,
            alloc,
            description,
            listen,
            *events,
            files,
            wire,
            out,
            signals,
        ),
        Task::Keep {
            description,
            script,
            store,
        } => keep(
            rt,
            alloc,
            description,
            script,
            store,
            files,
            out,
            disk,
            signals,
        ),
        Task::Ask { what, client } => ask(rt, alloc, what, client, files, link, out, signals),
        Task::Record(what) => record(rt, alloc, what, files, link, out, keeper, signals),
    }
}

//! The run of the program over the words of its process and the real outside.

ghost use Rattle.std.specs.Prelude.{◌≡◌, ◌⊎◌, Err, None};
ghost use Rattle.std.specs.Process.{exit_status};
ghost use Rattle.ads_outside.specs.Rose.{Rose};
ghost use Rattle.ads_program.specs.declared.real_outside.RealOutside.{RealOutside as OutsideOf};
ghost use Rattle.ads_program.specs.EndedSo.{EndedSo};
ghost use Rattle.client_commands.specs.CallUses.{keeper_used, link_used};
ghost use Rattle.run_tasks.specs.Ending.{line_alone};
ghost use Rattle.run_tasks.specs.Prints.{PrintsEnding, PutsMemoryLine};
ghost use Rattle.ads_run.specs.Program.{words_behind_name};
ghost use Rattle.ads_run.specs.Uses.{disk_used, uses};
ghost use Rattle.run_tasks.specs.StatusTable.{number_of};
ghost use Rattle.run_tasks.specs.Tasks.{asked_task};

use crate::real_outside::RealOutside;
use ads_base::NoMemory;
use ads_edge::{
    RealFiles, RealLink, RealSink, RealWire, hold_standard_descriptors, words_of_process,
};
use ads_outside::{Files, Link, Sink, Wire};
use ads_run::{Status, end_without_memory, run_program};
use persist_store::Disk;
use real_disk::RealDisk;
use sample_store::Keeper;
use sqlite_samples::SqliteKeeper;
use std::io::ErrorKind;
use std::process::ExitCode;
use std::thread::Threads;

/// The status of the run over the words of the process, its standard output and the rest of its outside, with the threads
/// that the program may start. What is closed of standard input, output and error gives its number to nothing that is opened;
/// where that can't be had, nothing is run.
pub fn status_of<T: Threads + Sync>(rt: &HostRuntime, threads: &T) -> Status {
    if !hold_standard_descriptors() {
        return Status::WriteFault;
    }
    let mut out = RealSink::new(rt);
    run_real(rt, threads, words_of_process(rt), &mut out)
}

/// What the process ends with.
pub fn exit_code(status: &Status) -> ExitCode
    ensures { exit_status result ≡ number_of status.now }
{
    ExitCode::from(status.number())
}

/// `run_program` over a sink and the rest of the outside of the process, of which nothing is told: so there are files, a wire,
/// a link, a disk and a keeper of the system over which the run ended with this status; or memory was wanting for them.
pub fn run_real<T: Threads + Sync, S: Sink>(
    rt: &HostRuntime,
    threads: &T,
    words: Result<Vec<String>, ErrorKind>,
    out: &mut S,
) -> Status
    ensures ends { ((result ≡ Status.Memory) × PutsMemoryLine (S.state out.old) (S.state out.new))
        ⊎ ((old : OutsideOf) × (new : OutsideOf) × EndedSo (words_behind_name words) result
        (⟦<RealFiles<HostRuntime> as Files>⟧.state old.files) (⟦<RealFiles<HostRuntime> as Files>⟧.state new.files)
        (uses (S.state out.old) (S.state out.new)
        (⟦<RealWire<HostRuntime> as Wire>⟧.state old.wire).history (⟦<RealWire<HostRuntime> as Wire>⟧.state new.wire).history
        (link_used ⟦<RealLink<HostRuntime> as Link>⟧.tells ⟦<RealLink<HostRuntime> as Link>⟧.state old.link new.link)
        (disk_used ⟦<RealDisk<HostRuntime> as Disk>⟧.contents ⟦<RealDisk<HostRuntime> as Disk>⟧.may_leave ⟦<RealDisk<HostRuntime> as Disk>⟧.moment
        ⟦<RealDisk<HostRuntime> as Disk>⟧.left_since ⟦<RealDisk<HostRuntime> as Disk>⟧.marked
        ⟦<RealDisk<HostRuntime> as Disk>⟧.fault_count old.disk new.disk)
        (keeper_used ⟦<SqliteKeeper as Keeper>⟧.state old.keeper new.keeper))) }
    ensures unreadable { words ≡ Err ErrorKind.OutOfMemory → result ≡ Status.Memory }
    ensures usage { result ≡ Status.Usage → asked_task (words_behind_name words) ≡ None }
    ensures no_command { asked_task (words_behind_name words) ≡ None
        → PrintsEnding (line_alone Status.Usage) result (S.state out.old) (S.state out.new) }
    ensures write_fault { result ≡ Status.WriteFault → Rose (S.state out.old).faults (S.state out.new).faults }
{
    match RealOutside::new(rt) {
        Ok(mut outside) => run_over(rt, threads, words, &mut outside, out),
        Err(NoMemory) => end_without_memory(out),
    }
}

// The same over an outside, which is dropped by whoever owns it.
fn run_over<T: Threads + Sync, S: Sink>(
    rt: &HostRuntime,
    threads: &T,
    words: Result<Vec<String>, ErrorKind>,
    outside: &mut RealOutside,
    out: &mut S,
) -> Status
    ensures ends { EndedSo (words_behind_name words) result
        (⟦<RealFiles<HostRuntime> as Files>⟧.state outside.old.files) (⟦<RealFiles<HostRuntime> as Files>⟧.state outside.new.files)
        (uses (S.state out.old) (S.state out.new)
        (⟦<RealWire<HostRuntime> as Wire>⟧.state outside.old.wire).history (⟦<RealWire<HostRuntime> as Wire>⟧.state outside.new.wire).history
        (link_used ⟦<RealLink<HostRuntime> as Link>⟧.tells ⟦<RealLink<HostRuntime> as Link>⟧.state outside.old.link outside.new.link)
        (disk_used ⟦<RealDisk<HostRuntime> as Disk>⟧.contents ⟦<RealDisk<HostRuntime> as Disk>⟧.may_leave ⟦<RealDisk<HostRuntime> as Disk>⟧.moment
        ⟦<RealDisk<HostRuntime> as Disk>⟧.left_since ⟦<RealDisk<HostRuntime> as Disk>⟧.marked
        ⟦<RealDisk<HostRuntime> as Disk>⟧.fault_count outside.old.disk outside.new.disk)
        (keeper_used ⟦<SqliteKeeper as Keeper>⟧.state outside.old.keeper outside.new.keeper)) }
    ensures unreadable { words ≡ Err ErrorKind.OutOfMemory → result ≡ Status.Memory }
    ensures usage { result ≡ Status.Usage → asked_task (words_behind_name words) ≡ None }
    ensures no_command { asked_task (words_behind_name words) ≡ None
        → PrintsEnding (line_alone Status.Usage) result (S.state out.old) (S.state out.new) }
    ensures write_fault { result ≡ Status.WriteFault → Rose (S.state out.old).faults (S.state out.new).faults }
{
    run_program(
        threads,
        rt.alloc(),
        words,
        &mut outside.files,
        &mut outside.wire,
        &mut outside.link,
        out,
        &mut outside.disk,
        &mut outside.keeper,
    )
}

//! The run of the daemon over the words of its process and the real outside.

ghost use Rattle.std.specs.Prelude.{◌≡◌, drop};
ghost use Rattle.std.specs.Process.{exit_status};
ghost use Rattle.run_tasks.specs.StatusTable.{number_of};

use crate::serving::serve_setup;
use ads_edge::{RealFiles, RealSink, hold_standard_descriptors, words_of_process};
use ads_outside::Sink;
use daemon_edge::{ErrSink, RealPlaces};
use daemon_run::{Prepared, prepare};
use run_tasks::{Status, end_without_memory};
use std::io::ErrorKind;
use std::process::ExitCode;
use std::thread::Threads;

/// The status of the run over the words of the process, with the threads that it may start. What is closed of standard input,
/// output and error gives its number to nothing that is opened; where that can't be had, nothing is run.
pub fn status_of<T: Threads + Sync>(rt: &HostRuntime, threads: &T) -> Status {
    if !hold_standard_descriptors() {
        return Status::WriteFault;
    }
    let mut out = RealSink::new(rt);
    let mut err = ErrSink::new();
    match words_of_process(rt) {
        Ok(words) => run_words(
            rt,
            threads,
            behind_name(words.as_slice()),
            &mut out,
            &mut err,
        ),
        Err(ErrorKind::OutOfMemory) => end_without_memory(&mut err),
        // A word that is no text names no file.
        Err(_) => run_words(rt, threads, &[], &mut out, &mut err),
    }
}

/// What the process ends with.
pub fn exit_code(status: &Status) -> ExitCode
    ensures { exit_status result ≡ number_of status.now }
{
    ExitCode::from(status.number())
}

// The words behind the program's name.
fn behind_name(all: &[String]) -> &[String]
    ensures { result.now ≡ drop 1 all.now }
{
    if all.is_empty() { all } else { &all[1..] }
}

fn run_words<T: Threads + Sync, S: Sink, E: Sink>(
    rt: &HostRuntime,
    threads: &T,
    words: &[String],
    out: &mut S,
    err: &mut E,
) -> Status {
    let Ok(mut files) = RealFiles::new(rt.alloc(), *rt) else {
        return end_without_memory(err);
    };
    let places = RealPlaces::new(*rt);
    match prepare(rt.alloc(), words, &mut files, &places, out, err) {
        Prepared::Ended(status) => status,
        Prepared::Ready(setup) => serve_setup(rt, threads, &setup, &mut files, out, err),
    }
}

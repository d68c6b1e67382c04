//! The whole trial, and how it ends.

use crate::tally::{Tally, try_all};
use crate::{Fault, Runs};
use std::process::ExitCode;
use std::thread::Threads;

/// Tries all runs that runs.txt names over each program, and prints how many went as wanted over it. It ends with 0 where there
/// were some and all did.
pub fn main_of<T: Threads + Sync, R: Runs>(
    rt: &HostRuntime,
    threads: &T,
    programs: &[R],
) -> ExitCode {
    match try_each(rt, threads, programs) {
        Ok(true) => ExitCode::from(0),
        Ok(false) => ExitCode::from(1),
        Err(fault) => {
            let what = words_of(fault);
            let _ = println!(rt; "no runs: {what}");
            ExitCode::from(1)
        }
    }
}

// Whether all runs went as wanted over each program.
fn try_each<T: Threads + Sync, R: Runs>(
    rt: &HostRuntime,
    threads: &T,
    programs: &[R],
) -> Result<bool, Fault> {
    let mut all = true;
    for program in programs {
        let tally = try_all(rt, threads, program)?;
        if !end(rt, tally)? {
            all = false;
        }
    }
    Ok(all)
}

fn words_of(fault: Fault) -> &'static str {
    match fault {
        Fault::Memory => "memory was wanting",
        Fault::Off(what) => what,
        Fault::Unwritten => "standard output cannot be written",
    }
}

// The counts are told. Whether there were runs, and all went as wanted.
fn end(rt: &HostRuntime, tally: Tally) -> Result<bool, Fault> {
    let Tally {
        good,
        differing,
        unreadable,
    } = tally;
    println!(rt; "runs as wanted {good}, differing {differing}, unreadable {unreadable}")?;
    Ok(good > 0 && differing == 0 && unreadable == 0)
}

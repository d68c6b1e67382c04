//! Tries whole runs of the daemon over files, a wire, a sink, a disk and a log in memory. Each file that data/runs.txt names holds
//! runs: their words, files and events, the calls that fail, and the status, the output, the log and the store that must come.
#![tactic(auto)]

mod case_judge;
mod case_told;
mod run_case;

use crate::run_case::Adsd;
use run_sheets::main_of;
use std::process::ExitCode;

fn main(rt: HostRuntime) -> ExitCode {
    main_of(&rt, &rt, &[Adsd])
}

//! Tries whole runs of the program over files, a wire, a link, a sink, a disk and a keeper in memory. Each file that data/runs.txt
//! names holds runs: their words, files and events, the calls that fail, and the status, the output and the logs that must come.
//! Each is tried twice, the second time over a wire that takes frames in runs.
#![tactic(auto)]

mod run_case;

use crate::run_case::Ads;
use run_sheets::main_of;
use std::process::ExitCode;

fn main(rt: HostRuntime) -> ExitCode {
    main_of(
        &rt,
        &rt,
        &[Ads { takes_runs: false }, Ads { takes_runs: true }],
    )
}

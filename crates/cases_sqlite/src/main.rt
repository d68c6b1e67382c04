//! Tries samples in an SQLite file: what is put, what is told of it, and what another keeper finds in the file.
#![tactic(auto)]

mod calls;
mod turns;

use ads_base::NoMemory;
use std::fs;
use std::process::ExitCode;
use turns::{Turn, take_turn, tell};

/// The file of the samples, where the program runs.
const PATH: &str = "samples.db";

/// What SQLite keeps beside it.
const LOG: &str = "samples.db-wal";

/// Ends with 0 where all came as wanted, with 1 where something else came, and with 2 where memory is wanting. It begins
/// without a file, and leaves the file for whoever wants to read it.
fn main(rt: HostRuntime) -> ExitCode {
    let _ = fs::remove_file(&rt, PATH);
    let _ = fs::remove_file(&rt, LOG);
    match tried(&rt) {
        Ok(true) => ExitCode::SUCCESS,
        Ok(false) => ExitCode::from(1),
        Err(NoMemory) => ExitCode::from(2),
    }
}

fn tried(rt: &HostRuntime) -> Result<bool, NoMemory> {
    let begun = take_turn(rt, rt.clone()?, Turn::First);
    let alone = tell(
        rt,
        "the keeper has gone: nothing stands beside the file",
        has_no_log(rt),
    );
    let gone_on = take_turn(rt, rt.clone()?, Turn::Second);
    let still_alone = tell(
        rt,
        "the other has gone too: nothing stands beside the file",
        has_no_log(rt),
    );
    Ok(begun && alone && gone_on && still_alone)
}

fn has_no_log(rt: &HostRuntime) -> bool {
    matches!(fs::exists(rt, LOG), Ok(false))
}

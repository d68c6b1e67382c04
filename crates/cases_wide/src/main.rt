//! Tries whole runs of the wide server over scripts. Each file that data/runs.txt names holds runs: a script, and the log that
//! must be printed of its play on plant.toml.
#![tactic(auto)]

mod draft;
mod fault;
mod folder;
mod play;
mod tally;
mod told;

use crate::fault::Fault;
use crate::tally::{Tally, try_all};
use std::process::ExitCode;

fn main(rt: HostRuntime) -> ExitCode {
    match try_all(&rt, &rt).and_then(|tally| end(&rt, tally)) {
        Ok(true) => ExitCode::from(0),
        Ok(false) => ExitCode::from(1),
        Err(fault) => {
            let what = words_of(fault);
            let _ = println!(rt; "no runs: {what}");
            ExitCode::from(1)
        }
    }
}

fn words_of(fault: Fault) -> &'static str {
    match fault {
        Fault::Memory => "memory was wanting",
        Fault::Off(what) => what,
        Fault::Unwritten => "standard output cannot be written",
    }
}

// The counts are told. Whether there were runs, and all went as wanted.
fn end(rt: &HostRuntime, tally: Tally) -> Result<bool, Fault> {
    let Tally { good, differing } = tally;
    println!(rt; "runs as wanted {good}, differing {differing}")?;
    Ok(good > 0 && differing == 0)
}

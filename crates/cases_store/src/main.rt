//! Tries stores and keepers by the tables of data/: what is saved or put, which calls fail, where the machine stops, and what
//! must come.
#![tactic(auto)]

mod answer;
mod disks;
mod fault;
mod keepers;
mod names;
mod tables;
mod words;

use fault::Fault;
use std::process::ExitCode;

/// Ends with 0 where all came as written, with 1 where something else came, and with 2 where a table can't be read.
fn main(rt: HostRuntime) -> ExitCode {
    match tables::try_all(&rt) {
        Ok(0) => ExitCode::SUCCESS,
        Ok(_) => ExitCode::from(1),
        Err(fault) => {
            let _ = rt.println(why(fault));
            ExitCode::from(2)
        }
    }
}

fn why(fault: Fault) -> &'static str {
    match fault {
        Fault::Memory => "memory is wanting",
        Fault::Outside => "a file can't be read or written",
        Fault::Off(what) => what,
    }
}

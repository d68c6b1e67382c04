//! The program `ads` once more, for the gate's run of it that ends with another status: `rt ci` runs a program on one list of words alone.
#![tactic(auto)]

use ads_program::{exit_code, status_of};
use std::process::ExitCode;

fn main(rt: HostRuntime) -> ExitCode {
    exit_code(&status_of(&rt, &rt))
}

//! The daemon: it ends with the exit number of its run over the words of its process and the real outside.
#![tactic(auto)]

use adsd_program::{exit_code, status_of};
use std::process::ExitCode;

fn main(rt: HostRuntime) -> ExitCode {
    exit_code(&status_of(&rt, &rt))
}

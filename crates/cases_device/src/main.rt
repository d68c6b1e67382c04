//! Tries the cases of data/ on the device and a client of it: ports, index groups, routes, handles, notifications, sums.
#![tactic(auto)]

mod calls;

use case_sheets::main_of;
use std::process::ExitCode;

/// Ends with 0 where each case had its answer, 1 where one had not, and 2 where the cases could not be tried.
fn main(rt: HostRuntime) -> ExitCode {
    main_of::<calls::Device, HostRuntime>(&rt)
}

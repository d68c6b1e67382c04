//! Tries the cases of data/ on descriptions: what is accepted, how types lie in memory, tables of symbols, uploads of types.
#![tactic(auto)]

mod calls;

use case_sheets::main_of;
use std::process::ExitCode;

/// Ends with 0 where each case had its answer, 1 where one had not, and 2 where the cases could not be tried.
fn main(rt: HostRuntime) -> ExitCode {
    main_of::<calls::DescriptionCalls, HostRuntime>(&rt)
}

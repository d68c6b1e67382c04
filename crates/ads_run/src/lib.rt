//! The server's, the relay's and the client's commands as a library: `run` over any files, wire, link, sink, disk and keeper, and
//! `run_program` over the words of a process and the signals that the program has.
#![tactic(auto)]

mod program;
mod program_signals;
mod top_call;

pub use crate::program::run_program;
pub use crate::program_signals::ProgramSignals;
pub use crate::top_call::run;
pub use plant_commands::logs_in_turns_keep_promises;
pub use run_tasks::{Status, end_without_memory};
pub use server_core::Sources;

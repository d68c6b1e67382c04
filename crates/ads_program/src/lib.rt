//! The program over the outside of its process: files, sockets, standard output, a file of kept values and a table of samples.
#![tactic(auto)]

mod process;
mod real_outside;

pub use crate::process::{exit_code, run_real, status_of};

//! The commands over descriptions and scripts in files: they are checked, migrated, played, kept in a store, and served over a wire.
#![tactic(auto)]

mod built_in;
mod check;
mod commands;
mod counted_core;
mod counted_relay;
mod counting;
mod keep_file;
mod laws;
mod load;
mod machine_run;
mod migrate;
mod play;
mod relay_play;
mod relay_serve;
mod relay_summary;
mod replay;
mod report;
mod script_run;
mod scripted;
mod selftest;
mod serve_file;
mod serving;
mod summary;

pub use crate::commands::print_file_task;
pub use crate::keep_file::keep;
pub use crate::laws::logs_in_turns_keep_promises;
pub use crate::relay_serve::serve_relay;
pub use crate::serve_file::{serve, serve_in};
pub use crate::serving::{print_counts, start_and_tell};
pub use crate::summary::summary_line;

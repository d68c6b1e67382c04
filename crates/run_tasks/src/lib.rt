//! What all commands share: the task that the words ask for, the verdict on it, how a run ends, and what is read and printed.
#![tactic(auto)]

mod client_task;
mod command_task;
mod described;
mod ending;
mod file;
mod file_task;
mod outcome;
mod record_task;
mod refusal;
mod status;
mod status_line;
mod task;

pub use crate::client_task::ClientTask;
pub use crate::described::{Accepted, read_description};
pub use crate::ending::{end_without_memory, print_and_end, print_line, print_outcome};
pub use crate::file::bytes_of_file;
pub use crate::file_task::FileTask;
pub use crate::outcome::{Outcome, ended};
pub use crate::record_task::RecordTask;
pub use crate::refusal::bad_description;
pub use crate::status::Status;
pub use crate::status_line::{LINK_FAULT_LINE, USAGE_LINE, last_line};
pub use crate::task::{Task, task_asked};

//! The daemon over the outside of its process: files, sockets, signals, standard output and error, systemd, a status file, a store.
#![tactic(auto)]

mod kept_body;
mod kept_description;
mod log_told;
mod plant_judge;
mod process;
mod read_before;
mod real_names;
mod real_outlet;
mod serving;

pub use crate::kept_description::KeptDescription;
pub use crate::plant_judge::PlantJudge;
pub use crate::process::{exit_code, status_of};

//! The signals that a configuration names: values from tables, files of numbers and recordings, one a tick, again and again.
#![tactic(auto)]

mod fault;
mod laws;
mod making;
mod numbers;
mod played;
mod reading;
mod recordings;
mod tables;

pub use fault::{SourceFault, Trouble};
pub use laws::values_come_round;
pub use numbers::numbers_in;
pub use played::Played;
pub use reading::read_sources;
pub use recordings::{NoRecordings, Recorded, Recordings};

//! Notification frames: the stamps and samples of command 8, written and read.
#![tactic(auto)]

mod notes;
mod place;
mod reading;
mod samples;
mod skipping;
mod writing;

pub use notes::Notes;
pub use reading::read_note;
pub use samples::{OwnSample, Sample, Samples};
pub use writing::put_note;

//! What the answers to a call's requests lead to: values and entries are read from them, and lines are printed.
#![tactic(auto)]

mod asking;
mod call;
mod entries;
mod own_entry;
mod printed;
mod progress;
mod record_answers;
mod recording;
mod recordings;
mod replies;
mod showing;
mod stage;
mod steps;
mod values;
mod watching;

pub use call::{Call, Mode2};
pub use own_entry::OwnEntry;
pub use printed::put_total_line;
pub use progress::{ended_at, stay};
pub use recording::{RecordWait, Recorded, Recording};
pub use recordings::recording_begun;
pub use replies::after_answer;
pub use stage::{Asked, CallEnd, Output, Progress, Purpose, Stage};
pub use steps::{after_end, after_sample, begun};
pub use watching::Watching;

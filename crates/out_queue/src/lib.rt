//! The output of one connection that waits: frames, of which the first may be taken in part.
#![tactic(auto)]

mod frame_run;
mod lens;
mod open_queue;
mod out_queue;

pub use open_queue::OpenQueue;
pub use out_queue::{MAX_QUEUED, OutQueue, Pushed};

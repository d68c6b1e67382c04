//! A client of one ADS device: requests are issued, bytes and moments come, and what is heard of them is told.
#![tactic(auto)]

mod client;
mod heard;
mod issuing;
mod samples;
mod unanswered;
mod verdict;

pub use client::Client;
pub use heard::{Heard, Issued, Outstanding};

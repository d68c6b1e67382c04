//! The AMS header: read, written, and turned round for the answer.
#![tactic(auto)]

mod header;

pub use header::{AMS_HEADER, Header, NOTIFICATION, REQUEST, answer_of, header_in, put, read};

//! The commands of a client: a call over a link or over the server of a description in the same process, and a recording.
#![tactic(auto)]

mod address;
mod ask_link;
mod ask_locally;
mod asking;
mod call_end;
mod client_call;
mod local_core;
mod record_link;
mod record_locally;
mod recording;

pub use crate::asking::ask;
pub use crate::recording::record;

//! A call of the client as a runner: step by step it gives what is to be sent, printed and kept, or how it ended.
#![tactic(auto)]

mod call_step;
mod hearing;
mod names;
mod record_spec;
mod runner;

pub use call_step::CallStep;
pub use client_replies::{Call, CallEnd, Mode2};
pub use names::read_names;
pub use record_spec::{Names, RecordSpec};
pub use runner::Runner;

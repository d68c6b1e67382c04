//! A call of the client over any link: its requests are sent, its texts are put into a sink, and what comes is heard.
#![tactic(auto)]

mod answers;
mod calling;
mod hearing;
mod loop_end;
mod no_keeper;
mod record_end;
mod recording;
mod total_lines;
mod turning;

pub use calling::run_call;
pub use client_calls::{Call, CallEnd, Mode2, Names, RecordSpec};
pub use loop_end::LoopEnd;
pub use record_end::RecordEnd;
pub use recording::run_record;

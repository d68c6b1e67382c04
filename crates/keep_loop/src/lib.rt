//! The loop of a server that keeps what its persistent symbols hold: turns, and saves of the body after each so manieth tick and at the end.
#![tactic(auto)]

mod keep_end;
mod keeping;
mod keeping_on;
mod kept_on;
mod laws;
mod looking;
mod marking;
mod reopened;
mod run_end;
mod save_counts;
mod save_end;
mod saves_on;
mod saves_or_stops;
mod saving;
mod tells;
mod told;

pub use keep_end::KeepEnd;
pub use keeping::keep_turns;
pub use keeping_on::keep_on;
pub use kept_on::KeptOn;
pub use laws::done_saves_are_not_undone;
pub use run_end::RunEnd;
pub use save_counts::SaveCounts;
pub use save_end::SaveEnd;
pub use tells::serve_telling;
pub use told::Told;

//! The play of a script over a store: the server of a description keeps what its persistent symbols hold.
#![tactic(auto)]

mod keeping;
mod kept_play;
mod played;
mod playing;
mod texts;

pub use keeping::keep_play;
pub use kept_play::KeptPlay;

//! Signals: sources that a device's symbols follow, each known by its wave and a place in it.
#![tactic(auto)]

mod bank;
mod place;
mod ramp;
mod signal;
mod square;
mod table8;

pub use bank::Bank;
pub use ramp::Ramp;
pub use signal::Signal;
pub use square::Square;
pub use table8::Table8;

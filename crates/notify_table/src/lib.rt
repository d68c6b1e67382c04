//! Notifications of one connection: what they watch, when their checks are due, and which of them a reload ends.
#![tactic(auto)]

mod going_round;
mod laws;
mod record;
mod ring;
mod round;
mod schedule;
mod sent;
mod spec;
mod watches;

pub use laws::histories_determine_notifications;
pub use round::Round;
pub use spec::{Ended, EndedList, Handles32, Mode, Spec, WatchFull, Watched};
pub use watches::Watches;

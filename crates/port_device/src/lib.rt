//! The memory of a plant: its ports with their bytes, symbols and state words, and what they answer.
#![tactic(auto)]

mod areas;
mod asking;
mod bits;
mod bound;
mod building;
mod copying;
mod counting;
mod described;
mod entries;
mod first_image;
mod kept;
mod manner;
mod marks;
mod moving;
mod naming;
mod own;
mod persistent;
mod persists;
mod port;
mod ports;
mod reading;
mod reloading;
mod signals_step;
mod type_ids;
mod typed;
mod uploads;
mod writable;
mod writing;

pub use manner::Manner;
pub use own::states_range;
pub use port::Port;
pub use ports::Ports;
pub use writable::may_write;
pub use writing::{RUN, STOP};

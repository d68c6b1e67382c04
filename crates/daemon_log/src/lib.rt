//! The log of a daemon: a bounded ring of lines that never waits, and the lines that it tells of a wire.
#![tactic(auto)]

mod chronicle;
mod counts;
mod date;
mod guest;
mod guests;
mod judge;
mod line;
mod no_outlet;
mod noticeboard;
mod plant;
mod posted;
mod reading_health;
mod reminder;
mod ring;
mod rules;
mod spoken;
mod status_text;
mod store_health;
mod store_lines;
mod told;
mod told_plant;

pub use chronicle::Chronicle;
pub use date::{Date, date_of};
pub use judge::Judge;
pub use line::Level;
pub use no_outlet::NoOutlet;
pub use noticeboard::Noticeboard;
pub use posted::{Reloaded, SaveTold, Served};
pub use ring::Ring;
pub use rules::rule_text;

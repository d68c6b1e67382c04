//! The run of a daemon: its words and its configuration are read, and the plant is served until a stop.
#![tactic(auto)]

mod help;
mod plant;
mod plant_kept;
mod plant_served;
mod plant_watched;
mod preparing;
mod printing;

pub use plant::run_plant;
pub use plant_watched::run_watched;
pub use preparing::{Prepared, prepare};

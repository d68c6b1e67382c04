//! The server as one object: events go in, frames for each connection come out.
#![tactic(auto)]

mod checking;
mod clients;
mod core_for_loop;
mod delivering;
mod device;
mod event_core;
mod events;
mod gate;
mod laws;
mod outcome;
mod profile;
mod reloading;
mod server;
mod sources;
mod summary;
mod taking;
mod telling;
mod ticking;
mod turned;

pub use checking::check_all;
pub use event_core::Core;
pub use gate::{Gate, OpenGate};
pub use laws::gone_connections_are_forgotten;
pub use outcome::Outcome;
pub use profile::Profile;
pub use sources::Sources;
pub use summary::Summary;
pub use turned::Turned;

//! The outside of a daemon: what asks it to stop, who looks on, where its log goes, whom it tells its state, what stands at names of files; and stand-ins in memory.
#![tactic(auto)]

mod beacon;
mod log_outlet;
mod mem_beacon;
mod mem_outlet;
mod mem_stop;
mod onlooker;
mod peer_names;
mod place;
mod places;
mod stop;
mod stop_cause;

pub use beacon::Beacon;
pub use log_outlet::LogOutlet;
pub use mem_beacon::MemBeacon;
pub use mem_outlet::MemOutlet;
pub use mem_stop::MemStop;
pub use onlooker::Onlooker;
pub use peer_names::{NoNames, PeerNames};
pub use place::{Node, Place};
pub use places::{Folder, NoPlaces, Places};
pub use stop::Stop;
pub use stop_cause::StopCause;

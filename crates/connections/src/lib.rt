//! The transport of the connections of a server or a relay: what waits for each, which of them is blocked or is to be shut, and
//! which an event touched. Streams, sessions and whatever else is kept of a connection are columns beside it, at equal places.
#![tactic(auto)]

mod column;
mod dues;
mod giving;
mod offering;
mod outlet;
mod outlets;
#[cfg(test)]
mod tests;
mod touched;

pub use column::remove_at;
pub use outlet::Outlet;
pub use outlets::Outlets;

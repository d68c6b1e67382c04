//! Routes: which machines may connect, and with what rights.
#![tactic(auto)]

mod admission;
mod routes;

pub use admission::Admission;
pub use routes::Routes;

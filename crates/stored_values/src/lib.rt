//! Stored bytes as those that the persistent symbols of a description begin with.
#![tactic(auto)]

mod entry_list;
mod finding;
mod ports;
mod storing;
mod symbols;

pub use storing::with_stored;

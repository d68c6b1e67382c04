//! A description under schema 2.
#![tactic(auto)]

mod migration;

pub use migration::migrate;

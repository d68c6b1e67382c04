//! Reads the text of a description.
#![tactic(auto)]

mod building;
mod fault;
mod initial;
mod judging;
mod nets;
mod numbers;
mod ports;
mod reading;
mod routes;
mod symbols;

pub use fault::DescFault;
pub use reading::read;

//! The input of `load`: a description and a script, as functions of a number.
#![tactic(auto)]

mod description;
mod lines;
mod load;
mod numbers;
mod requests;
mod room;
mod turns;
mod watches;

pub use load::{Load, make};

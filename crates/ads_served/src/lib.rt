//! What a loop serves: a machine over connections, as a trait.
#![tactic(auto)]

mod served;

pub use served::Served;

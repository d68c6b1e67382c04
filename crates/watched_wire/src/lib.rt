//! A wire that ends where a stop is asked for, and on which somebody looks on.
#![tactic(auto)]

mod watched;

pub use watched::Watched;

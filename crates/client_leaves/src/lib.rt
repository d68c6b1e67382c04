//! The leaves of a peer's value: the plain types, texts and enumerations that it is made of, with their places, as the
//! peer's upload of types says.
#![tactic(auto)]

mod dimensions;
mod entries;
mod leaf;
mod paths;
mod reading;
mod sizes;
mod symbol;
mod table;
mod walk;

pub use leaf::Leaf;
pub use symbol::leaves_in;

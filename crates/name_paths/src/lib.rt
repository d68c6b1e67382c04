//! Identifiers, names of symbols, decimal numbers, and paths to a symbol's parts.
#![tactic(auto)]

mod identifier;
mod indexes;
mod later;
mod name;
mod number;
mod path;
mod pieces;
mod step;

pub use identifier::is_identifier;
pub use indexes::Indexes;
pub use later::LaterSteps;
pub use name::is_symbol_name;
pub use number::read_number;
pub use path::Path;
pub use step::Step;

//! Names of a list, found ASCII case aside.
#![tactic(auto)]

mod lower;
mod name_index;

pub use lower::lower_copy;
pub use name_index::NameIndex;

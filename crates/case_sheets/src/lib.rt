//! Files of cases, each a call of a library, its arguments and the answer that must come: read, tried and told.
#![tactic(auto)]

mod answer;
mod args;
mod case;
mod fault;
mod folder;
mod libraries;
mod pieces;
mod report;
mod sheet;

pub use answer::Answer;
pub use args::{Args, is_same};
pub use fault::Fault;
pub use libraries::Libraries;
pub use report::main_of;

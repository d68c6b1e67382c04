//! Recorded samples in an SQLite file.
#![tactic(auto)]

mod base;
mod files;
mod found;
mod loss;
mod node;
mod places;
mod sqlite_keeper;
mod statements;
mod tables;

pub use sqlite_keeper::SqliteKeeper;

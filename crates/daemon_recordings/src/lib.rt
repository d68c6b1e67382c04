//! Recordings of `ads record`, read: SQLite files of samples.
#![tactic(auto)]

mod numbers;
mod opened;
mod sqlite_recordings;

pub use sqlite_recordings::SqliteRecordings;

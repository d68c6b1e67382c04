//! Recordings in SQLite files.

use crate::numbers::numbers_of;
use crate::opened::samples_in;
use daemon_signals::{Recorded, Recordings};
use sqlite::{Error, ErrorCode};
use std::fs;

/// The SQLite files that this runtime reaches, as `ads record` makes them. A file is open while it is read, and its rows stay
/// as they are.
#[derive(Drop)]
pub struct SqliteRecordings {
    rt: HostRuntime,
}

impl SqliteRecordings {
    /// No file is open.
    pub fn new(rt: HostRuntime) -> SqliteRecordings {
        SqliteRecordings { rt }
    }
}

impl Recordings for SqliteRecordings {
    fn samples(&mut self, file: &str, name: &str) -> Recorded {
        // The library makes a file that is not there.
        if !matches!(fs::exists(&self.rt, file), Ok(true)) {
            return Recorded::Failed;
        }
        match samples_in(&self.rt, file, name) {
            Ok(rows) => numbers_of(self.rt.alloc(), rows.as_slice()),
            Err(Error::SqliteFailure(ErrorCode::OutOfMemory)) => Recorded::Memory,
            Err(_) => Recorded::Failed,
        }
    }
}

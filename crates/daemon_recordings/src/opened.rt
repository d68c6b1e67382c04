//! A recording while it is open. Each call of the library stands in a function of its own, since each is dear to prove.

use sqlite::{Alter, Connection, Error, File, FileStore, Row, params};
use std::fs;

/// The samples of a name in their order, and one more than are played.
const SAMPLES: &str = "SELECT bytes FROM sample WHERE name = ?1 ORDER BY number LIMIT 1048577";

/// The rows of the samples of a name. What SQLite keeps beside the file stays as it was.
pub(crate) fn samples_in(rt: &HostRuntime, path: &str, name: &str) -> Result<Vec<Row>, Error> {
    let had_log = has_log(rt, path);
    let mut conn = open(rt, path)?;
    let rows = rows_of(&mut conn, name);
    // The log of another's file is for another to write back.
    if !had_log {
        close(rt, conn, path);
    }
    rows
}

fn open(rt: &HostRuntime, path: &str) -> Result<Connection<FileStore<File>>, Error> {
    Connection::open(rt, path)
}

fn rows_of<S: Alter>(conn: &mut Connection<S>, name: &str) -> Result<Vec<Row>, Error> {
    conn.query_all(SAMPLES, params![name.as_bytes()])
}

// Closes the file, and takes away the log that the opening made.
fn close(rt: &HostRuntime, conn: Connection<FileStore<File>>, path: &str) {
    match conn.close_files() {
        Ok(files) => {
            // The files are locked until they are dropped: a log that is taken away here is nobody's.
            if let Some(log) = log_beside(rt, path) {
                let _ = fs::remove_file(rt, log.as_str());
            }
            drop(files);
        }
        Err((_, store)) => drop(store.close()),
    }
}

// The name of the log beside a file that is there, behind each link.
fn log_beside(rt: &HostRuntime, path: &str) -> Option<String> {
    let Ok(real) = fs::canonicalize(rt, path) else {
        return None;
    };
    match format!(in rt.alloc(); "{}-wal", real.as_str()) {
        Ok(log) => Some(log),
        Err(_) => None,
    }
}

// Whether a log may stand beside a file.
fn has_log(rt: &HostRuntime, path: &str) -> bool {
    match log_beside(rt, path) {
        None => false,
        Some(log) => !matches!(fs::exists(rt, log.as_str()), Ok(false)),
    }
}

//! An open file of samples, and SQLite's log beside it.

use crate::places::{Places, log_of, real_name, tell};
use crate::tables::{last_number, settle_rows};
use sqlite::{Connection, Error, ErrorCode, File, FileStore, Options};
use std::fs;
use std::hash::{BuildHasher, RandomState};

/// The connection to an open file.
pub type Base = Connection<FileStore<File>>;

/// A file that is open, and where it stands.
#[derive(Drop)]
pub struct OpenFile {
    pub conn: Base,
    pub places: Places,
}

/// Opens a file and makes the tables where neither is there; gives the greatest number too. A file that is not one of samples
/// stays as it is, and so does what SQLite keeps beside it.
pub fn open_base(rt: &HostRuntime, path: &str) -> Result<(OpenFile, u64), Error> {
    regular(rt, path)?;
    let had_log = has_log(rt, path);
    let mut conn = Connection::open(rt, path)?;
    let places = Places::of(rt, path)?;
    match last_number(&mut conn) {
        Ok(last) => Ok((OpenFile { conn, places }, last)),
        Err(error) => {
            // The log of another's file is for another to write back.
            if !had_log {
                let _ = close_base(rt, conn, &places);
            }
            Err(error)
        }
    }
}

// What stands under a name and is no regular file is not opened, and told.
fn regular(rt: &HostRuntime, path: &str) -> Result<(), Error> {
    match fs::metadata(rt, path) {
        Ok(found) if !found.is_file() => {
            tell(rt, path, "it is no regular file");
            Err(Error::SqliteFailure(ErrorCode::CannotOpen))
        }
        _ => Ok(()),
    }
}

/// Writes the log back into the file, which stays locked, and goes on with what stands in the file then.
pub fn write_back(rt: &HostRuntime, conn: Base) -> Result<Base, Error> {
    let seed = salt(rt)?;
    match conn.close_files() {
        Ok(files) => match Connection::open_files(rt.alloc(), files, Options::new(seed)) {
            Ok(conn) => Ok(conn),
            Err((error, _)) => Err(error),
        },
        Err((error, store)) => {
            drop(store.close());
            Err(error)
        }
    }
}

// A random number, for the log that begins.
fn salt(rt: &HostRuntime) -> Result<u64, Error> {
    match RandomState::new(rt) {
        Ok(state) => Ok(state.hash_one(&0u8)),
        Err(_) => Err(Error::SqliteFailure(ErrorCode::CannotOpen)),
    }
}

/// Ends the transaction that is open, and closes the file, whether the transaction could be kept or not.
pub fn close_settled(rt: &HostRuntime, file: OpenFile) -> Result<(), Error> {
    let OpenFile { mut conn, places } = file;
    let settled = settle_rows(&mut conn);
    let closed = close_base(rt, conn, &places);
    match settled {
        Ok(()) => closed,
        Err(error) => Err(error),
    }
}

// Writes the log back into the file and takes it away, so that the file has every row. Where that fails, the rows stand in
// both.
fn close_base(rt: &HostRuntime, conn: Base, places: &Places) -> Result<(), Error> {
    match conn.close_files() {
        Ok(files) => {
            // The files are locked until they are dropped: a log that is taken away here is nobody's.
            places.remove_log(rt);
            drop(files);
            Ok(())
        }
        Err((error, store)) => {
            drop(store.close());
            Err(error)
        }
    }
}

// Whether a log may stand beside a file.
fn has_log(rt: &HostRuntime, path: &str) -> bool {
    match log_beside(rt, path) {
        Err(_) => false,
        Ok(log) => !matches!(fs::exists(rt, log.as_str()), Ok(false)),
    }
}

// The name of the log beside a file that is there.
fn log_beside(rt: &HostRuntime, path: &str) -> Result<String, Error> {
    let real = real_name(rt, path)?;
    log_of(rt, real.as_str())
}

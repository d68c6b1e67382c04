//! Where the files of a recording stand.

use crate::files::Files;
use crate::found::Found;
use crate::loss::Loss;
use crate::node::{Node, node_at, node_named};
use sqlite::{Error, ErrorCode};
use std::fs;
use std::io::ErrorKind;

/// A name leads nowhere.
const UNNAMED: Error = Error::SqliteFailure(ErrorCode::CannotOpen);

/// The names lead elsewhere.
const LOST: Error = Error::SqliteFailure(ErrorCode::SystemIoFailure);

const NO_MEMORY: Error = Error::SqliteFailure(ErrorCode::OutOfMemory);

/// Where the files of a recording stand, and which they were at its opening.
#[derive(Drop)]
pub struct Places {
    // The name that was given.
    name: String,
    // The name of the file, behind each link.
    real: String,
    // The name of SQLite's log.
    log: String,
    files: Files,
}

impl Places {
    /// Those of a file that is open under a name.
    pub fn of(rt: &HostRuntime, name: &str) -> Result<Places, Error> {
        let real = real_name(rt, name)?;
        let log = log_of(rt, real.as_str())?;
        let files = Files {
            file: known(node_named(rt, real.as_str()))?,
            folder: known(node_at(rt, folder_of(real.as_str())))?,
            log: known(node_named(rt, log.as_str()))?,
        };
        let name = copied(rt, name)?;
        Ok(Places {
            name,
            real,
            log,
            files,
        })
    }

    /// Looks whether the names still lead to the files. Where one does not, that is told on standard error.
    pub fn look(&self, rt: &HostRuntime) -> Result<(), Error> {
        match self.files.loss(&self.found(rt)) {
            None => Ok(()),
            Some(loss) => {
                tell(rt, self.name.as_str(), loss.words());
                Err(LOST)
            }
        }
    }

    /// Takes the log away, wherever the file is now; a log of others is left alone.
    pub fn remove_log(&self, rt: &HostRuntime) {
        if self.files.log.is(node_named(rt, self.log.as_str())) {
            let _ = fs::remove_file(rt, self.log.as_str());
        }
    }

    fn found(&self, rt: &HostRuntime) -> Found {
        Found {
            named: node_at(rt, self.name.as_str()),
            file: node_named(rt, self.real.as_str()),
            folder: node_at(rt, folder_of(self.real.as_str())),
            log: node_named(rt, self.log.as_str()),
        }
    }
}

/// Tells on standard error what there is about a name. What can't be told is lost.
pub fn tell(rt: &HostRuntime, name: &str, what: &str) {
    if let Ok(line) = format!(in rt.alloc(); "ads: {name}: {what}") {
        let _ = rt.eprintln(line);
    }
}

/// Where a name leads, behind each link.
pub fn real_name(rt: &HostRuntime, name: &str) -> Result<String, Error> {
    match fs::canonicalize(rt, name) {
        Ok(real) => copied(rt, real.as_str()),
        Err(error) if error.kind() == ErrorKind::OutOfMemory => Err(NO_MEMORY),
        Err(_) => Err(UNNAMED),
    }
}

/// The name of the log beside a file.
pub fn log_of(rt: &HostRuntime, real: &str) -> Result<String, Error> {
    match format!(in rt.alloc(); "{real}-wal") {
        Ok(log) => Ok(log),
        Err(_) => Err(NO_MEMORY),
    }
}

fn copied(rt: &HostRuntime, text: &str) -> Result<String, Error> {
    match String::from_str(rt.alloc(), text) {
        Ok(copy) => Ok(copy),
        Err(_) => Err(NO_MEMORY),
    }
}

// What is open stands somewhere, unless it was taken away meanwhile.
fn known(found: Option<Node>) -> Result<Node, Error> {
    match found {
        Some(node) => Ok(node),
        None => Err(UNNAMED),
    }
}

// The folder of a name without links, which begins with a `/`.
fn folder_of(real: &str) -> &str {
    match real.rsplit_once('/') {
        Some((folder, _)) if !folder.is_empty() => folder,
        _ => "/",
    }
}

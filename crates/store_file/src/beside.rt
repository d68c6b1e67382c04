//! A file beside the store's: made under a name that nobody has, and given its own once it is whole.

use crate::copy_name::{Rank, copy_name, file_name, folder_of, rank_at};
use crate::fault::StoreFault;
use std::alloc::{AllocError, Global};
use std::fs::{self, File, OpenOptions, Permissions};
use std::io::{self, ErrorKind};
use std::os::unix::fs::{OpenOptionsExt, PermissionsExt};

/// How many names are tried.
const TRIES: u64 = 100;

/// The greatest number of names of a folder that are looked at.
const MOST_NAMES: usize = 100_000;

/// A file that is being made: its name, and the file.
#[derive(Drop)]
pub(crate) struct Part {
    pub(crate) name: String,
    pub(crate) file: File,
}

/// A copy that stands under its name.
#[derive(Drop)]
pub(crate) struct Named {
    pub(crate) name: String,
    pub(crate) rank: Rank,
}

/// Makes a new file beside the store's, with the rights of this mode: whatever stands under a name that is tried stays.
pub(crate) fn new_part(rt: &HostRuntime, store: &str, mode: u32) -> Result<Part, StoreFault> {
    let rights = mode & 0o777;
    for n in 1..TRIES {
        let name = part_name(rt.alloc(), store, n)?;
        let made = OpenOptions::new()
            .read(true)
            .write(true)
            .create_new(true)
            .mode(rights)
            .open(rt, name.as_str());
        match made {
            Ok(file) => {
                file.set_permissions(Permissions::from_mode(rights))?;
                return Ok(Part { name, file });
            }
            Err(error) if error.kind() == ErrorKind::AlreadyExists => {}
            Err(error) => return Err(StoreFault::System(error)),
        }
    }
    Err(StoreFault::System(ErrorKind::AlreadyExists.into()))
}

fn part_name(alloc: Global, store: &str, n: u64) -> Result<String, AllocError> {
    format!(in alloc; "{store}.part-{n}")
}

/// Removes a file that was being made, as far as that goes.
pub(crate) fn remove_part(rt: &HostRuntime, part: &Part) {
    let _ = fs::remove_file(rt, part.name.as_str());
}

/// Gives a file that was made the name of a copy: the first one of this moment that nobody has.
pub(crate) fn give_name(
    rt: &HostRuntime,
    part: &Part,
    store: &str,
    what: &str,
    moment: u64,
) -> Result<Named, StoreFault> {
    for n in 1..TRIES {
        let name = copy_name(rt.alloc(), store, what, moment, n)?;
        match link_or_take(rt, part.name.as_str(), name.as_str()) {
            Ok(()) => {
                return Ok(Named {
                    name,
                    rank: rank_at(moment, n),
                });
            }
            Err(error) if error.kind() == ErrorKind::AlreadyExists => {}
            Err(error) => return Err(StoreFault::System(error)),
        }
    }
    Err(StoreFault::System(ErrorKind::AlreadyExists.into()))
}

// The file gets a name that nobody has. A file system without links has the name taken by an empty file first.
fn link_or_take(rt: &HostRuntime, part: &str, name: &str) -> io::Result<()> {
    match fs::hard_link(rt, part, name) {
        Ok(()) => {
            let _ = fs::remove_file(rt, part);
            Ok(())
        }
        Err(error) if error.kind() == ErrorKind::AlreadyExists => Err(error),
        Err(_) => {
            File::create_new(rt, name)?;
            fs::rename(rt, part, name)
        }
    }
}

/// The names in the folder of a path, as far as they are texts.
pub(crate) fn names_beside(rt: &HostRuntime, store: &str) -> io::Result<Vec<String>> {
    let mut names = Vec::new(rt.alloc());
    for entry in fs::read_dir(rt, folder_of(store))? {
        if names.len() >= MOST_NAMES {
            break;
        }
        let Ok(entry) = entry else {
            continue;
        };
        if entry.file_name().starts_with(file_name(store)) {
            names.push(String::from_str(rt.alloc(), entry.file_name())?)?;
        }
    }
    Ok(names)
}

/// Removes the regular file with this name in the folder of a path, as far as that goes.
pub(crate) fn remove_beside(rt: &HostRuntime, store: &str, name: &str) {
    let folder = folder_of(store);
    if let Ok(path) = format!(in rt.alloc(); "{folder}/{name}") {
        if let Ok(metadata) = fs::symlink_metadata(rt, path.as_str()) {
            if metadata.is_file() {
                let _ = fs::remove_file(rt, path.as_str());
            }
        }
    }
}

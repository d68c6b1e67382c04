//! What stands at names on the system's disks.

use crate::links::target_of;
use crate::may_write::may_write_in;
use crate::paths::{folder_in, last_in};
use ads_base::{NoMemory, Octets};
use cli_words::Text;
use daemon_outside::{Folder, Node, Place, Places};
use std::alloc::Global;
use std::fs::{self, Metadata};
use std::io::ErrorKind;
use std::os::unix::fs::MetadataExt;
use std::rt::Files as SystemFiles;

/// Where Linux has what standard error leads to.
const STANDARD_ERROR: &str = "/proc/self/fd/2";

/// The names on the system's disks.
#[derive(Drop)]
pub struct RealPlaces<R: SystemFiles + Drop> {
    rt: R,
}

impl<R: SystemFiles + Drop> RealPlaces<R> {
    /// The names that this runtime reaches.
    pub fn new(rt: R) -> RealPlaces<R> {
        RealPlaces { rt }
    }
}

impl<R: SystemFiles + Drop> Places for RealPlaces<R> {
    fn place_of(&self, alloc: Global, name: &str) -> Result<Place, NoMemory> {
        match known_target(alloc, &self.rt, name)? {
            Some(target) => place_at(alloc, &self.rt, target.as_str()),
            None => Ok(Place::Unknown),
        }
    }

    fn folder_of(&self, alloc: Global, name: &str) -> Result<Folder, NoMemory> {
        match known_target(alloc, &self.rt, name)? {
            Some(target) => Ok(folder_at(&self.rt, folder_in(target.as_str()))),
            None => Ok(Folder::Missing),
        }
    }

    fn error_place(&self) -> Place {
        match fs::metadata(&self.rt, STANDARD_ERROR) {
            Ok(found) => place_found(&found),
            Err(_) => Place::Unknown,
        }
    }
}

// The name to which a name leads; None where its links lead nowhere.
fn known_target<R: SystemFiles>(
    alloc: Global,
    rt: &R,
    name: &str,
) -> Result<Option<Text>, NoMemory> {
    match target_of(alloc, rt, name) {
        Ok(target) => Ok(Some(target)),
        Err(error) if error.kind() == ErrorKind::OutOfMemory => Err(NoMemory),
        Err(_) => Ok(None),
    }
}

fn place_at<R: SystemFiles>(alloc: Global, rt: &R, name: &str) -> Result<Place, NoMemory> {
    match fs::metadata(rt, name) {
        Ok(found) => Ok(place_found(&found)),
        Err(error) if error.kind() == ErrorKind::NotFound => free_place(alloc, rt, name),
        Err(_) => Ok(Place::Unknown),
    }
}

// Where nothing stands.
fn free_place<R: SystemFiles>(alloc: Global, rt: &R, name: &str) -> Result<Place, NoMemory> {
    match (last_in(name), fs::metadata(rt, folder_in(name))) {
        (Some(last), Ok(folder)) => {
            Ok(Place::Free(node_of(&folder), Octets::copy_of(alloc, last.as_bytes())?))
        }
        _ => Ok(Place::Unknown),
    }
}

fn place_found(found: &Metadata) -> Place {
    if found.is_file() {
        Place::File(node_of(found))
    } else {
        Place::Other(node_of(found))
    }
}

fn node_of(found: &Metadata) -> Node {
    Node {
        device: found.dev(),
        number: found.ino(),
    }
}

fn folder_at<R: SystemFiles>(rt: &R, folder: &str) -> Folder {
    match fs::metadata(rt, folder) {
        Ok(found) if !found.is_dir() => Folder::NoFolder,
        Ok(_) => {
            if may_write_in(folder) {
                Folder::Open
            } else {
                Folder::Closed
            }
        }
        Err(error) if error.kind() == ErrorKind::NotFound => Folder::Missing,
        Err(error) if error.kind() == ErrorKind::NotADirectory => Folder::NoFolder,
        Err(_) => Folder::Closed,
    }
}

//! What stands at the names of files.

use crate::Place;
use ads_base::NoMemory;
use std::alloc::Global;

/// What a folder is for files that are to be written in it.
#[derive(Clone, Copy, Debug, PartialEq, Eq)]
pub enum Folder {
    /// This user may make files in it.
    Open,
    /// It is not there.
    Missing,
    /// It is none.
    NoFolder,
    /// This user may make no files in it, or the disk may only be read.
    Closed,
}

/// Knows what stands at the names of files.
pub trait Places {
    /// What stands at a name.
    fn place_of(&self, alloc: Global, name: &str) -> Result<Place, NoMemory>;

    /// The folder in which a file of this name is to be written.
    fn folder_of(&self, alloc: Global, name: &str) -> Result<Folder, NoMemory>;

    /// What standard error leads to.
    fn error_place(&self) -> Place;
}

/// Knows of no name what stands there, and takes each folder as it should be.
#[derive(Clone, Copy, Debug)]
pub struct NoPlaces;

impl Places for NoPlaces {
    fn place_of(&self, _alloc: Global, _name: &str) -> Result<Place, NoMemory> {
        Ok(Place::Unknown)
    }

    fn folder_of(&self, _alloc: Global, _name: &str) -> Result<Folder, NoMemory> {
        Ok(Folder::Open)
    }

    fn error_place(&self) -> Place {
        Place::Unknown
    }
}

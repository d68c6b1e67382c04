//! Why a file of a run cannot be read.

use ads_base::NoMemory;
use std::alloc::AllocError;
use std::io;

/// Why a line, or the whole file, cannot be read.
#[derive(Clone, Copy, Debug)]
pub enum Fault {
    /// Memory was wanting.
    Memory,
    /// What is wrong, in words.
    Off(&'static str),
    /// Standard output could not be written.
    Unwritten,
}

impl From<NoMemory> for Fault {
    fn from(_error: NoMemory) -> Fault {
        Fault::Memory
    }
}

impl From<AllocError> for Fault {
    fn from(_error: AllocError) -> Fault {
        Fault::Memory
    }
}

impl From<io::Error> for Fault {
    fn from(_error: io::Error) -> Fault {
        Fault::Unwritten
    }
}

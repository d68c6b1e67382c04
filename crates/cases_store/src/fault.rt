//! Why the tables can't be tried.

use ads_base::NoMemory;
use std::alloc::{AllocError, AllocFailed};
use std::io;

/// Why the tables can't be tried.
#[derive(Clone, Copy)]
pub enum Fault {
    /// Memory was wanting.
    Memory,
    /// A file could not be read or written, or nothing could be printed.
    Outside,
    /// What is wrong with a table.
    Off(&'static str),
}

impl From<NoMemory> for Fault {
    fn from(_: NoMemory) -> Fault {
        Fault::Memory
    }
}

impl From<AllocError> for Fault {
    fn from(_: AllocError) -> Fault {
        Fault::Memory
    }
}

impl<T: Drop> From<AllocFailed<T>> for Fault {
    fn from(_: AllocFailed<T>) -> Fault {
        Fault::Memory
    }
}

impl From<io::Error> for Fault {
    fn from(_: io::Error) -> Fault {
        Fault::Outside
    }
}

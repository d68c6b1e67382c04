//! Want of memory, the one free answer of every call that allocates.

use std::alloc::{AllocError, AllocFailed};

/// Memory was wanting. What a call took by value is dropped, and what was lent to it stands as before,
/// unless the call says otherwise.
#[derive(Clone, Copy, Debug, PartialEq, Eq)]
pub struct NoMemory;

impl From<AllocError> for NoMemory {
    fn from(_: AllocError) -> Self {
        NoMemory
    }
}

impl<T: Drop> From<AllocFailed<T>> for NoMemory {
    fn from(_: AllocFailed<T>) -> Self {
        NoMemory
    }
}

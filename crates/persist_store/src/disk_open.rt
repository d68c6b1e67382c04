//! How the opening of a file ends.

/// How the opening of a file ends.
#[derive(Clone, Copy, Debug, PartialEq, Eq)]
pub enum DiskOpen {
    /// The file has so many bytes; one that was not there was made empty.
    Ready(u64),
    /// The disk failed.
    Failed,
    /// Memory was wanting.
    Memory,
}

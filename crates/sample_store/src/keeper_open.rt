//! How the opening of a table ends.

/// How the opening of a table ends.
#[derive(Clone, Copy, Debug, PartialEq, Eq)]
pub enum KeeperOpen {
    /// It has so many rows.
    Ready(u64),
    /// The keeper failed.
    Failed,
    /// Memory was wanting.
    Memory,
}

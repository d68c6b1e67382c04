//! How a sync ends.

/// How a sync ends.
#[derive(Clone, Copy, Debug, PartialEq, Eq)]
pub enum Synced {
    /// A stop leaves what a read gives.
    Done,
    /// The disk failed.
    Failed,
}

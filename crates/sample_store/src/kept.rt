//! How a put ends, and how a settling does.

/// How a put ends, and how a settling does.
#[derive(Clone, Copy, Debug, PartialEq, Eq)]
pub enum Kept {
    /// A put: the row is there, or its number was there before. A settling: the rows are where they stay.
    Done,
    /// The keeper failed; no row that is told changed.
    Failed,
    /// Memory was wanting; no row that is told changed.
    Memory,
}

//! How a write ends.

/// How a write ends.
#[derive(Clone, Copy, Debug, PartialEq, Eq)]
pub enum Wrote {
    /// All bytes stand at their place.
    All,
    /// The disk failed; any of the bytes may stand there.
    Failed,
    /// Memory was wanting; any of the bytes may stand there.
    Memory,
}

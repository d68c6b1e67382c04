//! What became of a body that may have to be saved.

/// What became of a body that may have to be saved.
#[derive(Clone, Copy, Debug, PartialEq, Eq)]
pub enum SaveEnd {
    /// It stands already.
    Same,
    Saved,
    /// The disk failed.
    Failed,
    /// The save was refused by its limit.
    Limit,
    /// Memory was wanting.
    Memory,
}

//! What writing a piece answers.

/// The answer to a put.
#[derive(Clone, Copy, Debug, PartialEq, Eq)]
pub enum Put {
    /// All bytes were written.
    All,
    /// The piece was written in part or not at all; a fault was counted.
    Failed,
    /// Memory was wanting, and the piece may have been written in part.
    Memory,
}

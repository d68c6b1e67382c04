//! What became of a store that may have to be opened again.

/// What became of a store that may have to be opened again.
#[derive(Clone, Copy, Debug, PartialEq, Eq)]
pub(crate) enum Reopened {
    /// It is open.
    Open,
    /// The disk failed.
    Failed,
    /// Memory was wanting.
    Memory,
}

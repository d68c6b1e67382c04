//! What a writing took.

/// What a socket took when it was written to.
#[derive(Clone, Copy)]
pub(crate) enum Written {
    /// So many first bytes.
    Bytes(usize),
    /// Nothing now: it is full.
    Full,
    /// The connection failed.
    Failed,
}

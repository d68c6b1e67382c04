//! What became of the shutting of a connection.

/// The answer to a call that shuts a connection.
#[derive(Clone, Copy, Debug, PartialEq, Eq)]
pub enum Shut {
    /// The connection is shut.
    Done,
    /// Memory was wanting.
    Memory,
}

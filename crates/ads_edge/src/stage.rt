//! How far a connection has come.

/// What is still to be done for a connection.
#[derive(Clone, Copy, PartialEq, Eq)]
pub(crate) enum Stage {
    /// It is served.
    Served,
    /// It failed, and that it is closed is still to be told.
    Failed,
    /// The server is done with it, and what waits for it is still to be sent.
    Leaving,
    /// All was sent and the peer was told so; what it still sends is passed over.
    Parting,
}

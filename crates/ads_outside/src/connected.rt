//! What became of a connection to a peer.

/// The answer to a call that connects a link.
#[derive(Clone, Copy, Debug, PartialEq, Eq)]
pub enum Connected {
    /// It is connected; the moment, in 100 ns.
    Ready(u64),
    /// It is not; a fault was counted.
    Failed,
    /// Memory was wanting.
    Memory,
}

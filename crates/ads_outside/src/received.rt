//! What a link gives next.

/// The answer to a call that receives bytes over a link, with its moment in 100 ns.
#[derive(Clone, Copy, Debug, PartialEq, Eq)]
pub enum Received {
    /// So many first bytes of the buffer came, at least one.
    Bytes(u32, u64),
    /// Nothing came for a while.
    Quiet(u64),
    /// The peer closed the connection.
    Closed(u64),
    /// The link failed; a fault was counted.
    Failed,
    /// Memory was wanting.
    Memory,
}

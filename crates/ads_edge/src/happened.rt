//! What real sockets give next.

use ads_base::Octets;

/// The next thing that happens on real sockets. A connection that is accepted has the number that was asked for.
#[derive(Drop)]
pub(crate) enum Happened {
    /// A connection was accepted.
    Opened,
    /// Bytes that came on a connection.
    Piece(u32, Octets),
    /// A connection's peer is gone.
    Closed(u32),
    /// A connection of which an offer was short takes bytes again.
    Writable(u32),
    /// 10 ms have passed; the moment is in 100 ns since 1 January 1601.
    Tick(u64),
    /// The description's file holds other bytes than last.
    Reload(Octets),
    /// The system's clock or its poll failed, or there is no number left for a connection.
    Failed,
    /// Memory was wanting.
    Memory,
}

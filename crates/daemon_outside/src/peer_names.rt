//! Who is at the other end of the connections of a wire.

use std::net::SocketAddr;

/// Knows the peers of a wire.
pub trait PeerNames<W> {
    /// The peer of a connection that is there; None where that is not known.
    fn peer_of(&self, wire: &W, conn: u32) -> Option<SocketAddr>;

    /// How many peers were refused since the start.
    fn refused(&self, wire: &W) -> u64;

    /// The n-th peer that was refused, counted from 0; None where that is not known any more.
    fn refused_peer(&self, _wire: &W, _n: u64) -> Option<SocketAddr> {
        None
    }

    /// How many readings of the watched description failed since the start.
    fn failed_readings(&self, _wire: &W) -> u64 {
        0
    }

    /// How often since the start nobody could be accepted since no descriptor was left.
    fn without_descriptor(&self, _wire: &W) -> u64 {
        0
    }
}

/// Knows no peer.
#[derive(Clone, Copy, Debug)]
pub struct NoNames;

impl<W> PeerNames<W> for NoNames {
    fn peer_of(&self, _wire: &W, _conn: u32) -> Option<SocketAddr> {
        None
    }

    fn refused(&self, _wire: &W) -> u64 {
        0
    }
}

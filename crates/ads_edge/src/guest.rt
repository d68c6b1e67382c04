//! A connection that was accepted and is not yet served.

use mio::net::TcpStream;
use std::net::SocketAddr;

/// A connection that may get a place, and the address of its peer.
#[derive(Drop)]
pub(crate) struct Guest {
    pub(crate) stream: TcpStream,
    pub(crate) peer: SocketAddr,
}

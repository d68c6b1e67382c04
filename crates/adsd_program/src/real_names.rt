//! The peers of real sockets.

use ads_edge::RealWire;
use daemon_outside::PeerNames;
use local_router::Routed;
use std::net::{Net, SocketAddr};
use std::rt::Files as SystemFiles;
use std::time::Clock;

/// Knows the peers of a wire of real sockets, with a router or without.
#[derive(Clone, Copy, Debug)]
pub(crate) struct RealNames;

impl<R: Net + Clock + SystemFiles + Eprint + Drop> PeerNames<Routed<RealWire<R>>> for RealNames {
    fn peer_of(&self, wire: &Routed<RealWire<R>>, conn: u32) -> Option<SocketAddr> {
        wire.wire.peer_of(conn)
    }

    fn refused(&self, wire: &Routed<RealWire<R>>) -> u64 {
        wire.wire.refused()
    }

    fn refused_peer(&self, wire: &Routed<RealWire<R>>, n: u64) -> Option<SocketAddr> {
        wire.wire.refused_peer(n)
    }

    fn failed_readings(&self, wire: &Routed<RealWire<R>>) -> u64 {
        wire.wire.failed_readings()
    }

    fn without_descriptor(&self, wire: &Routed<RealWire<R>>) -> u64 {
        wire.wire.without_descriptor()
    }
}

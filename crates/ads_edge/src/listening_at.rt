//! Where a server listens.

use std::net::{Ipv4Addr, SocketAddr};

/// The address that a text names: `localhost` or an IP address, a colon and a port.
pub(crate) fn address_of(listen: &str) -> Option<SocketAddr> {
    match listen.strip_prefix("localhost:") {
        Some(port) => {
            let port = port.parse::<u16>().ok()?;
            Some(SocketAddr::from((Ipv4Addr::LOCALHOST, port)))
        }
        None => listen.parse::<SocketAddr>().ok(),
    }
}

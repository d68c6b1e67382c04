//! Addresses to listen at.

use std::net::SocketAddr;

/// Whether a text is an address: `localhost`, an IPv4 address or an IPv6 address in brackets, a colon, and a port from 1 on.
pub(crate) fn is_address(text: &str) -> bool {
    match text.strip_prefix("localhost:") {
        Some(port) => is_port(port),
        None => match text.parse::<SocketAddr>() {
            Ok(address) => address.port() != 0,
            Err(_) => false,
        },
    }
}

fn is_port(text: &str) -> bool {
    match text.parse::<u16>() {
        Ok(port) => port != 0,
        Err(_) => false,
    }
}

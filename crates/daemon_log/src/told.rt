//! The lines that a log tells of connections.

use crate::guest::Guest;
use crate::spoken::Spoken;
use ads_base::NetId;
use std::alloc::{AllocError, Global};
use std::net::SocketAddr;

/// How many times 100 ns are a second.
const SECOND: u64 = 10_000_000;

/// A connection began.
pub(crate) fn opened_line(
    alloc: Global,
    conn: u32,
    peer: Option<SocketAddr>,
) -> Result<String, AllocError> {
    match peer {
        Some(address) => format!(in alloc; "opened {conn} from {address}"),
        None => format!(in alloc; "opened {conn}"),
    }
}

/// A peer was refused, since no net of the allow list has its address.
pub(crate) fn refused_line(alloc: Global, peer: SocketAddr) -> Result<String, AllocError> {
    format!(in alloc; "not allowed {peer}: its address is in no net of allow")
}

/// More peers were refused, of which no addresses are known.
pub(crate) fn forgotten_line(alloc: Global, peers: u64) -> Result<String, AllocError> {
    format!(in alloc; "not allowed: {peers} more peers")
}

/// The first bytes of a connection told who speaks.
pub(crate) fn speaks_line(alloc: Global, guest: &Guest) -> Result<String, AllocError> {
    let conn = guest.conn;
    match guest.spoken {
        Spoken::As(net, port) => {
            let net = net_text(alloc, net)?;
            let net = net.as_str();
            format!(in alloc; "speaks {conn} as {net}, port {port}")
        }
        Spoken::NoFrame => format!(in alloc;
            "speaks {conn} no ADS: its first bytes begin no AMS/TCP frame"
        ),
        Spoken::Little => format!(in alloc; "speaks {conn} too little"),
    }
}

/// Who speaks has no route, and what lets it in, or all others too.
pub(crate) fn no_route_line(alloc: Global, conn: u32, net: NetId) -> Result<String, AllocError> {
    let net = net_text(alloc, net)?;
    let net = net.as_str();
    format!(in alloc;
        "no route for {conn}: to let it in, add three lines to the description: [[route]] and net = \"{net}\" and rights = \"read\"; to let every NetId in, add other_routes = \"read\" to the configuration"
    )
}

/// A connection's peer closed it.
pub(crate) fn closed_line(alloc: Global, guest: &Guest, now: u64) -> Result<String, AllocError> {
    let (who, seconds) = (who_text(alloc, guest)?, seconds_of(guest, now));
    let who = who.as_str();
    let (came, went) = (guest.bytes_in, guest.bytes_out);
    format!(in alloc; "closed {who} by its peer after {seconds} s, {came} bytes in, {went} out")
}

/// An offer to a connection failed: its peer is gone.
pub(crate) fn lost_line(alloc: Global, guest: &Guest, now: u64) -> Result<String, AllocError> {
    let (who, seconds) = (who_text(alloc, guest)?, seconds_of(guest, now));
    let who = who.as_str();
    let (came, went) = (guest.bytes_in, guest.bytes_out);
    format!(in alloc; "lost {who} after {seconds} s, {came} bytes in, {went} out: its peer is gone")
}

/// The server shut a connection, and why, as far as that is known.
pub(crate) fn shut_line(
    alloc: Global,
    guest: &Guest,
    now: u64,
    why: &str,
) -> Result<String, AllocError> {
    let (who, seconds) = (who_text(alloc, guest)?, seconds_of(guest, now));
    let who = who.as_str();
    match guest.spoken {
        Spoken::As(net, _) => {
            let net = net_text(alloc, net)?;
            let net = net.as_str();
            format!(in alloc; "shut {who} by the server after {seconds} s, spoke as {net}: {why}")
        }
        Spoken::NoFrame | Spoken::Little => format!(in alloc;
            "shut {who} by the server after {seconds} s: {why}"
        ),
    }
}

// The number of a connection, and its peer where that is known.
fn who_text(alloc: Global, guest: &Guest) -> Result<String, AllocError> {
    let conn = guest.conn;
    match guest.peer {
        Some(address) => format!(in alloc; "{conn} from {address}"),
        None => format!(in alloc; "{conn}"),
    }
}

fn net_text(alloc: Global, net: NetId) -> Result<String, AllocError> {
    let [a, b, c, d, e, f] = net.bytes;
    format!(in alloc; "{a}.{b}.{c}.{d}.{e}.{f}")
}

// How long a connection has been there.
fn seconds_of(guest: &Guest, now: u64) -> u64 {
    now.saturating_sub(guest.since) / SECOND
}

//! An AMS address: whom a frame is to, or from.

use crate::NetId;

/// An AMS NetId and an AMS port.
///
/// On the wire: NetId 6 bytes, port 2 bytes, little-endian. Beckhoff Information System, "AMS Header".
#[derive(Clone, Copy, Debug, PartialEq, Eq)]
pub struct AmsAddr {
    pub net: NetId,
    pub port: u16,
}

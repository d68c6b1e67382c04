//! What a peer did that ends a call.

use crate::Octets;

/// How a peer broke the protocol.
#[derive(Debug, Drop)]
pub enum Peer {
    /// A broken AMS/TCP frame: its six leading bytes.
    Frame(Octets),
    /// An AMS packet, or an answer, that is off its text: its bytes.
    Text(Octets),
    /// The connection was closed before the call was over.
    Closed,
}

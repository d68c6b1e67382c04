//! What a session answers to an AMS packet.

use ads_base::Octets;

/// What comes of an AMS packet.
#[derive(Debug, Drop)]
pub enum Taken {
    /// The frame of the answer, with its AMS/TCP header.
    Answer(Octets),
    /// No answer.
    Silent,
    /// The connection is to be closed.
    Close,
}

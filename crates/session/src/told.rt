//! What a session says of an AMS packet whose answer it appends.

/// What became of an AMS packet.
#[derive(Clone, Copy, Debug)]
pub enum Told {
    /// The frame of the answer was appended, with its AMS/TCP header.
    Answer,
    /// No answer.
    Silent,
    /// The connection is to be closed.
    Close,
}

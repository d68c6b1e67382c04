//! What a reading brought, from a connection or over a link.

/// What came when a connection or a link was read.
#[derive(Clone, Copy)]
pub(crate) enum Arrived {
    /// So many bytes, at least one, which stand at the front of the buffer.
    Bytes(usize),
    /// No bytes are there now; over a link, nothing for 10 ms.
    Nothing,
    /// The peer sends no more.
    End,
    /// The connection failed.
    Failed,
}

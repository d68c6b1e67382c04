//! How a read ends.

/// How a read ends.
#[derive(Clone, Copy, Debug, PartialEq, Eq)]
pub enum DiskRead {
    /// So many bytes stand there, and were put at the front of the buffer.
    Bytes(u32),
    /// The disk failed.
    Failed,
}

//! The two servers over one device.

/// What a server makes of a request: what is written, or what TwinCAT's clients mean by it.
#[derive(Clone, Copy, Debug, PartialEq, Eq)]
pub enum Manner {
    /// Each request is what is written.
    Strict,
    /// A length by handle or by name is the size of a buffer, a name ends at its first NUL and may have a full stop in
    /// front, and a notification in the context of a task is one of the server's ticks.
    Wide,
}

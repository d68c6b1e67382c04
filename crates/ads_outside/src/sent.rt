//! What became of bytes that were sent.

/// The answer to a call that sends bytes over a link.
#[derive(Clone, Copy, Debug, PartialEq, Eq)]
pub enum Sent {
    /// All of them were sent.
    All,
    /// Some first bytes were sent, perhaps none; a fault was counted.
    Failed,
    /// Memory was wanting; some first bytes were sent, perhaps none.
    Memory,
}

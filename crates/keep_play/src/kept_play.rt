//! How the play of a script over a store ends.

use ads_base::Octets;

/// How the play of a script over a store ends, want of memory aside.
#[derive(Drop)]
pub enum KeptPlay {
    /// All was played, and the store holds what the persistent symbols hold at the end. This is printed: the lines of
    /// the log, the summary, and how many saves were done.
    Done(Octets),
    /// The disk failed.
    StoreFault,
    /// A save was refused: its body is longer than 1,048,576 bytes, or the greatest number of a save is used.
    StoreLimit,
}

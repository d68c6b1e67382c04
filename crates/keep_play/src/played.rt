//! How the play of a script over an open store ends.

use ads_outside::Log;

/// How the play of a script over an open store ends, want of memory aside.
#[derive(Drop)]
pub(crate) enum Played {
    /// The whole script was played: its log, and how many saves were done.
    Done(Log, u64),
    /// The disk failed in a save.
    StoreFault,
    /// A save was refused by its limit.
    StoreLimit,
}

//! How a recording over a link ended.

use crate::LoopEnd;

/// The outcome of a recording over a link.
#[derive(Debug, Drop)]
pub enum RecordEnd {
    /// As a call ends.
    Loop(LoopEnd),
    /// The keeper failed.
    KeeperFault,
}

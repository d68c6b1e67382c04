//! How a loop ended.

use ads_outside::End;

/// How a loop ended beside which something stood.
#[derive(Clone, Copy, Debug, PartialEq, Eq)]
pub enum LoopEnd {
    /// The turns ended so.
    Ended(End),
    /// What stood beside it ended it, behind a whole turn.
    Stopped,
}

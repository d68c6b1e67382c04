//! How a run ended that serves on where a save fails.

use crate::{SaveCounts, SaveEnd};
use ads_outside::End;

/// How a run ended that serves on where a save fails.
#[derive(Clone, Copy, Debug, PartialEq, Eq)]
pub struct KeptOn {
    /// How its turns ended.
    pub ended: End,
    /// What became of the body at the end; nothing was looked at then where memory ended it.
    pub last: Option<SaveEnd>,
    /// What became of all that was looked at.
    pub counts: SaveCounts,
}

//! What the store's file tells a log.

use crate::line::Level;

/// A line, and how much it weighs.
#[derive(Drop)]
pub(crate) struct StoreLine {
    pub(crate) level: Level,
    pub(crate) text: String,
}

/// Lines in order that were not told yet, and why nothing is saved, where that is so.
#[derive(Drop)]
pub(crate) struct StoreLines {
    pub(crate) lines: Vec<StoreLine>,
    pub(crate) held: Option<String>,
}

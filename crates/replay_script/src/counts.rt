//! The counts of a run.

/// What the summary line of a run prints.
#[derive(Clone, Copy, Debug, PartialEq, Eq)]
pub struct Counts {
    /// Connections that were opened.
    pub connections: u64,
    /// Whole frames that were taken.
    pub requests: u64,
    /// Produced frames that are responses.
    pub replies: u64,
    /// Samples in produced notifications.
    pub samples: u64,
    /// Reloads that were accepted.
    pub accepted: u64,
    /// Reloads that were refused.
    pub refused: u64,
}

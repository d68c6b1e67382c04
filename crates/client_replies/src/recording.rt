//! A recording: the samples of several symbols, row by row.

use crate::own_entry::OwnEntry;
use crate::watching::Watching;
use ads_base::{ListOf, Octets};
use std::collections::VecDeque;

/// A notification, and the name that its samples are kept under.
#[derive(Debug, Drop)]
pub struct Recorded {
    pub handle: u32,
    pub name: Octets,
}

/// What a recording has learned so far.
#[derive(Debug, Drop)]
pub struct Recording {
    pub watching: Watching,
    /// The number of the first row.
    pub first: u64,
    /// The names whose entries are not asked for yet.
    pub names: VecDeque<Octets>,
    /// The entries so far, in the order of the names.
    pub entries: ListOf<OwnEntry>,
    /// In the order of the names that they were added for first.
    pub notifications: ListOf<Recorded>,
    /// The handles of those that have ended.
    pub ended: ListOf<u32>,
    /// How many samples are kept.
    pub kept: u32,
}

/// What a recording waits for.
#[derive(Debug, Drop)]
pub enum RecordWait {
    ForEntry,
    /// The notification of a symbol with this name.
    ForNotification(Octets),
    ForSamples,
    /// A deletion, behind which those that have not ended of these handles are deleted.
    ForDeletion(VecDeque<u32>),
}

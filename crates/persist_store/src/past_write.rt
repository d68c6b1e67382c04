//! A write that was made.

use ads_base::{ListOf, Octets};

/// A write that was made: what a read gave before it, its place, how many bytes it was to write, and the number of syncs
/// before it.
#[derive(Drop)]
pub struct PastWrite {
    pub before: Octets,
    pub place: u64,
    pub size: u64,
    pub period: u64,
}

/// Writes in the order in which they were made.
pub type PastWrites = ListOf<PastWrite>;

//! What a recording is asked for.

use ads_base::{ListOf, Octets};
use client_replies::Mode2;

/// The names of symbols, or other texts.
pub type Names = ListOf<Octets>;

/// When samples are sent, the cycle in 100 ns, how many rows are taken, and the number of the first one.
#[derive(Clone, Copy, Debug, PartialEq, Eq)]
pub struct RecordSpec {
    pub mode: Mode2,
    pub cycle: u32,
    pub count: u32,
    pub first: u64,
}

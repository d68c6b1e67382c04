//! A stop of the machine.

use ads_base::Octets;

/// A stop of the machine in one call of a disk. That call and every later one fails. Of a write in it the first bytes of
/// the tail stand at the write's place afterwards, at most as many as were to be written; of another call nothing changes.
#[derive(Drop)]
pub struct Stop {
    /// The number of the call, counted from 1 over all calls.
    pub call: u64,
    pub tail: Octets,
}

//! The slot that a file stands for.

use ads_base::Octets;

/// The slot that a file stands for: the second or the first one, with its number and its body.
#[derive(Drop)]
pub struct StandingSlot {
    pub is_second: bool,
    pub sequence: u64,
    pub body: Octets,
}

//! What a notification is asked for.

use crate::Mode2;

/// The transmission mode, the cycle in 100 ns, and how many samples are taken.
#[derive(Clone, Copy, Debug, PartialEq, Eq)]
pub struct Watching {
    pub mode: Mode2,
    pub cycle: u32,
    pub count: u32,
}

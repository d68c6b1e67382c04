//! What an event led to.

use symbol_file::DescFault;

/// What became of an event that a core took.
#[derive(Clone, Copy, Debug, PartialEq, Eq)]
pub enum Outcome {
    /// The machine has moved.
    Done,
    /// The description of a reload was accepted, and this is the new version.
    ReloadOk(u8),
    /// The description of a reload was refused, for this fault.
    ReloadRefused(DescFault),
}

//! Frames of samples.

use ads_base::{ListOf, Octets};

/// A frame of samples, whole with its six leading bytes: what one port tells one client address at a moment.
///
/// Beckhoff Information System, "ADS Device Notification".
#[derive(Debug, Drop)]
pub struct NoteFrame {
    /// How many samples it has.
    pub samples: u32,
    pub frame: Octets,
}

/// Frames of samples, in the order of the least handle in them.
pub type FrameList = ListOf<NoteFrame>;

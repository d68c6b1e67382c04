//! What a splitter answers.

use ads_base::Octets;

/// What stands next in a stream.
#[derive(Debug, Drop)]
pub enum Cut {
    /// The AMS packet of the next frame: AMS header and data.
    Frame(Octets),
    /// What is left is open: fewer than six bytes, or a frame that is not all there.
    NotYet,
    /// Six bytes stand at a frame's place that begin no frame. No further byte mends it.
    Broken,
}

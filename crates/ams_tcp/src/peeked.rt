//! What a splitter shows.

/// What stands next in a stream, with the packet lent: nothing is copied.
#[derive(Clone, Copy, Debug, Drop)]
pub enum Peeked<'a> {
    /// The AMS packet of the next frame: AMS header and data.
    Frame(&'a [u8]),
    /// What is left is open: fewer than six bytes, or a frame that is not all there.
    NotYet,
    /// Six bytes stand at a frame's place that begin no frame. No further byte mends it.
    Broken,
}

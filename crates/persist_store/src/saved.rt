//! How a save ends.

/// How a save ends.
#[derive(Clone, Copy, Debug, PartialEq, Eq)]
pub enum Saved {
    /// The file stands for the new body, whenever the machine stops.
    Done,
    /// The disk failed; the file stands for the body before or for the new one, and the store is to be opened again.
    Failed,
    /// The body has more than 1,048,576 bytes, or the greatest number of a save is used; nothing was changed.
    Limit,
    /// An earlier save failed or lacked memory; nothing was changed, and the store is to be opened again.
    Shut,
}

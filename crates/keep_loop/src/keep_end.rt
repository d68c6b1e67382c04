//! How a run with a store ends.

/// How a run with a store ends.
#[derive(Clone, Copy, Debug, PartialEq, Eq)]
pub enum KeepEnd {
    /// The wire has no more events, and the file stands for the body at the end: so many saves were done.
    Done(u64),
    /// The wire failed to give an event, and the file stands for the body then: so many saves were done.
    LinkFault(u64),
    /// So many events were taken as were allowed, and the file stands for the body then: so many saves were done.
    Budget(u64),
    /// The disk failed in a save.
    StoreFault,
    /// A save was refused: its body is longer than 1,048,576 bytes, or the greatest number of a save is used.
    StoreLimit,
    /// Memory was wanting.
    Memory,
}

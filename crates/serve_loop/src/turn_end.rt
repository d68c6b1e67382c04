//! How a turn ended.

/// The outcome of one turn of a loop.
#[derive(Clone, Copy, Debug, PartialEq, Eq)]
pub enum Turn {
    /// The event was a tick, and all connections are served.
    Tick,
    /// It was another event, and all connections are served.
    Other,
    /// The wire has no more events.
    End,
    /// The wire failed to give an event.
    LinkFault,
    /// Memory was wanting.
    Memory,
}

//! How serving a wire ends.

/// Why a loop over a wire ended.
#[derive(Clone, Copy, Debug, PartialEq, Eq)]
pub enum End {
    /// The wire has no more events.
    Done,
    /// As many events were taken as were allowed.
    Budget,
    /// The wire failed to give an event.
    LinkFault,
    /// Memory was wanting.
    Memory,
}

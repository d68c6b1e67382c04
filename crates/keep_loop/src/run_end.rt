//! How the turns of a run ended, before its last save.

/// How the turns of a run ended, before its last save.
#[derive(Clone, Copy, Debug, PartialEq, Eq)]
pub enum RunEnd {
    /// The wire has no more events.
    Done,
    /// The wire failed to give an event.
    LinkFault,
    /// So many events were taken as were allowed.
    Budget,
}

//! What a wire gives next.

use crate::Event;

/// The answer to a call for the next event.
#[derive(Debug, Drop)]
pub enum Next {
    /// The next event.
    Event(Event),
    /// There is none any more.
    End,
    /// The wire failed; a fault and a stop were counted.
    Failed,
    /// Memory was wanting.
    Memory,
}

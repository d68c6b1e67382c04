//! How a call over a link ended.

use client_calls::CallEnd;

/// The outcome of a call over a link.
#[derive(Debug, Drop)]
pub enum LoopEnd {
    /// The call is over.
    Call(CallEnd),
    /// The link failed.
    LinkFault,
    /// The sink failed.
    WriteFault,
    /// Too many answers of the link were waited for.
    Budget,
}

//! The log of a server: what happened to it and what became of what it offered.

use crate::Event;
use ads_base::{ListOf, Octets};

/// One move of a log.
#[derive(Debug, Drop)]
pub enum Move {
    /// An event came.
    Event(Event),
    /// A connection was offered so many bytes, and took these first ones of them.
    Took(u32, u32, Octets),
    /// An offer to a connection failed, and the connection is gone.
    Lost(u32),
    /// The server shut a connection.
    Shut(u32),
}

/// The moves in order.
pub type Log = ListOf<Move>;

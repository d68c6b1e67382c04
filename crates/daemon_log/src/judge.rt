//! Who reads a description for a log.

use ads_base::{ListOf, NetId};
use std::alloc::Global;
use std::io;

/// Reads the text of a description that is served.
pub trait Judge {
    /// The NetIds of its routes; None where they can't be told.
    fn routes(&self, alloc: Global, bytes: &[u8]) -> Option<ListOf<NetId>>;

    /// Whether machines without a route may connect too.
    fn lets_others_in(&self) -> bool {
        false
    }

    /// Keeps an accepted description, where descriptions are kept; what failed where it can't be.
    fn keep(&mut self, _bytes: &[u8]) -> io::Result<()> {
        Ok(())
    }
}

//! The connections that a log knows.

use crate::guest::Guest;
use std::alloc::Global;

/// The greatest number of connections that are known at once.
const MOST: usize = 1_024;

/// Connections, at most so many.
#[derive(Drop)]
pub(crate) struct Guests {
    guests: Vec<Guest>,
}

impl Guests {
    /// Nobody is there.
    pub(crate) fn new(alloc: Global) -> Guests {
        Guests {
            guests: Vec::new(alloc),
        }
    }

    /// How many are there.
    pub(crate) fn len(&self) -> usize {
        self.guests.len()
    }

    /// A connection begins; where there is no room or no memory for it, it is not known.
    pub(crate) fn add(&mut self, guest: Guest) {
        if self.guests.len() < MOST {
            let _ = self.guests.push(guest);
        }
    }

    /// Bytes came on a connection: who speaks, where they told it now.
    pub(crate) fn hear(&mut self, conn: u32, bytes: &[u8]) -> Option<Guest> {
        for guest in self.guests.as_mut_slice() {
            if guest.conn == conn {
                return if guest.hear(bytes) {
                    Some(*guest)
                } else {
                    None
                };
            }
        }
        None
    }

    /// A connection took bytes.
    pub(crate) fn give(&mut self, conn: u32, n: u32) {
        for guest in self.guests.as_mut_slice() {
            if guest.conn == conn {
                guest.give(n);
                return;
            }
        }
    }

    /// A connection is gone: what was known of it.
    pub(crate) fn remove(&mut self, conn: u32) -> Option<Guest> {
        let at = self.place_of(conn)?;
        if at < self.guests.len() {
            return Some(self.guests.swap_remove(at));
        }
        None
    }

    fn place_of(&self, conn: u32) -> Option<usize> {
        self.guests.iter().position(|guest| guest.conn == conn)
    }
}

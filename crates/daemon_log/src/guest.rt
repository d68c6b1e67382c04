//! What a log knows of a connection.

ghost use Rattle.std.specs.Prelude.{◌≤◌};

use crate::spoken::{HEAD, Spoken, spoken_in};
use std::net::SocketAddr;

/// A connection: who is there, since when, and what came and went.
#[derive(Clone, Copy, Debug)]
pub(crate) struct Guest {
    pub(crate) conn: u32,
    pub(crate) peer: Option<SocketAddr>,
    pub(crate) since: u64,
    pub(crate) bytes_in: u64,
    pub(crate) bytes_out: u64,
    pub(crate) spoken: Spoken,
    head: [u8; 22],
    heard: usize,
    ghost within: { heard ≤ 22 },
}

impl Guest {
    /// A connection that begins.
    pub(crate) fn new(conn: u32, peer: Option<SocketAddr>, since: u64) -> Guest {
        Guest {
            conn,
            peer,
            since,
            bytes_in: 0,
            bytes_out: 0,
            spoken: Spoken::Little,
            head: [0; 22],
            heard: 0,
        }
    }

    /// Bytes came. True where they tell who speaks, which was not known before.
    pub(crate) fn hear(&mut self, bytes: &[u8]) -> bool {
        self.bytes_in = self.bytes_in.saturating_add(bytes.len() as u64);
        if self.spoken != Spoken::Little {
            return false;
        }
        self.note(bytes);
        self.spoken = spoken_in(&self.head[..self.heard]);
        self.spoken != Spoken::Little
    }

    /// Whether its first bytes begin a frame, as far as they came.
    pub(crate) fn speaks_ads(&self) -> bool {
        self.spoken != Spoken::NoFrame
    }

    /// Bytes were taken.
    pub(crate) fn give(&mut self, n: u32) {
        self.bytes_out = self.bytes_out.saturating_add(u64::from(n));
    }

    // The first bytes are kept.
    fn note(&mut self, bytes: &[u8]) {
        for byte in bytes {
            if self.heard == HEAD {
                return;
            }
            self.head[self.heard] = *byte;
            self.heard += 1;
        }
    }
}

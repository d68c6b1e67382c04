//! What a client issues and hears.

use ads_base::{Octets, Peer};

/// A request that is to be sent: its invoke id, and its AMS/TCP frame.
#[derive(Debug, Drop)]
pub struct Issued {
    pub id: u32,
    pub frame: Octets,
}

/// 64 requests wait for their answers already.
#[derive(Clone, Copy, Debug, PartialEq, Eq)]
pub struct Outstanding;

/// What a client hears. Moments count 100 ns from 1 January 1601.
///
/// Beckhoff Information System, "AMS Header", "ADS Device Notification".
#[derive(Debug, Drop)]
pub enum Heard {
    /// The answer to a request: its AMS error, and the bytes behind the AMS header.
    Answered {
        id: u32,
        error: u32,
        command: u16,
        bytes: Octets,
    },
    /// A sample of a notification, with its stamp's moment.
    Sample {
        handle: u32,
        time: u64,
        bytes: Octets,
    },
    /// The notification has ended.
    Ended(u32),
    /// A response that answers no outstanding request, with its invoke id.
    Stray(u32),
    /// No answer came: the moments of the issue and of the tick by which it timed out.
    TimedOut {
        id: u32,
        sent: u64,
        now: u64,
    },
    /// All bytes that came are heard.
    NotYet,
    /// The peer broke the protocol, and nothing of it is heard from then on.
    Broken(Peer),
}

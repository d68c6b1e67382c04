//! What a client asks of a notification, and what it is told of one that ended.

use ads_base::{AmsAddr, ListOf};
use index_groups::Reach;

/// What the checks of a notification send, but for its first check, which always sends its bytes.
///
/// Beckhoff Information System, "ADS Add Device Notification", transmission mode.
#[derive(Clone, Copy, Debug, PartialEq, Eq)]
pub enum Mode {
    /// Each check sends the bytes (ADSTRANS_SERVERCYCLE, 3).
    Cycle,
    /// A check sends the bytes where they differ from those last sent (ADSTRANS_SERVERONCHA, 4).
    Change,
}

/// What a notification watches at its port.
#[derive(Clone, Copy, Debug, PartialEq, Eq)]
pub enum Watched {
    /// Bytes or a bit of an area.
    InArea(Reach),
    /// So many of the port's own bytes, from one of them on: ADS state 2, device state 2, symbol version 1.
    Own { first: u8, len: u8 },
}

/// A notification as it is asked for.
#[derive(Clone, Copy, Debug, PartialEq, Eq)]
pub struct Spec {
    /// The AMS port whose bytes are watched.
    pub port: u16,
    /// The client, to whom samples go.
    pub to: AmsAddr,
    /// What is watched.
    pub watched: Watched,
    pub mode: Mode,
    /// The time between two checks, in 100 ns; 0 counts as 1.
    pub cycle: u32,
}

/// A notification that a reload ended.
#[derive(Clone, Copy, Debug, PartialEq, Eq)]
pub struct Ended {
    pub handle: u32,
    pub port: u16,
    pub to: AmsAddr,
}

/// Notifications that a reload ended.
pub type EndedList = ListOf<Ended>;

/// Handles of notifications.
pub type Handles32 = ListOf<u32>;

/// A connection has 512 notifications, or has been granted 4,294,967,295 handles of them.
#[derive(Clone, Copy, Debug, PartialEq, Eq)]
pub struct WatchFull;

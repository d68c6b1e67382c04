//! The log of a link: what it was connected to, what was sent and what came.

use crate::LinkEvent;
use ads_base::{ListOf, Octets};

/// One move of a link.
#[derive(Debug, Drop)]
pub enum LinkMove {
    /// It was connected to this address, and answered this moment.
    Connected(Octets, u64),
    /// A connection to this address failed.
    Refused(Octets),
    /// These bytes were sent.
    Sent(Octets),
    /// This came.
    Came(LinkEvent),
}

/// The moves of a link, in order.
pub type LinkLog = ListOf<LinkMove>;

//! What comes of a run.

use ads_base::Octets;

/// What comes of a run, or must come: the number of the status, what was printed, what was told on standard error, the wire's
/// log, what was sent over the link, and what is left of the disk's file and of the keeper's rows.
#[derive(Drop)]
pub struct Came {
    pub status: u8,
    pub out: Octets,
    pub told: Octets,
    pub log: Octets,
    pub talk: Octets,
    pub left: Octets,
    pub rows: Octets,
}

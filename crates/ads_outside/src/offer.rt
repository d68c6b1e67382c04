//! What became of an offer.

/// The answer to an offer of bytes to a connection.
#[derive(Clone, Copy, Debug, PartialEq, Eq)]
pub enum Offer {
    /// So many first bytes were taken.
    Took(u32),
    /// The connection took nothing and is lost; a fault was counted.
    Failed,
    /// Memory was wanting, and nothing was taken.
    Memory,
}

//! What a wire is started with.

use ads_base::Octets;

/// The arguments of a start, as bytes.
#[derive(Debug, Drop)]
pub struct Listening {
    /// Where to listen.
    pub listen: Octets,
    /// The name of the description's file.
    pub name: Octets,
    /// Its first bytes.
    pub first: Octets,
}

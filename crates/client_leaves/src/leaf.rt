//! A leaf of a value.

use ads_base::Octets;

/// A plain type, a text or an enumeration that a value is made of.
#[derive(Debug, Drop)]
pub struct Leaf {
    /// The symbol's name, and behind it members and indexes, as `Main.axis[2].pos`.
    pub path: Octets,
    /// The first byte within the value.
    pub place: u32,
    pub type_id: u32,
    /// The size in bytes.
    pub size: u32,
}

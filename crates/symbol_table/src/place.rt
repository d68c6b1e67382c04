//! Places: bytes of a symbol, by where they lie in their port.

use type_layout::Area;

/// Bytes of one symbol: a part of it, or the whole.
#[derive(Clone, Copy, Debug, PartialEq, Eq)]
pub struct Place {
    /// The number of the symbol in its port, counted from 0 in the order of the description.
    pub symbol: u32,
    pub area: Area,
    /// The first byte within the area.
    pub at: u32,
    /// The number of bytes.
    pub len: u32,
}

//! What stands at a byte of an area.

/// A symbol, or a gap between symbols, in an area of a port.
#[derive(Clone, Copy, Debug, PartialEq, Eq)]
pub enum Tile {
    /// The number of a symbol.
    Symbol(u32),
    /// Bytes that belong to no symbol.
    Gap {
        /// The first byte within the area.
        at: u32,
        /// The number of bytes.
        len: u32,
    },
}

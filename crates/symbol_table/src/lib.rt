//! The symbols of a port: where a name leads, whose a byte is, and where a reload puts the bytes of kept symbols.
#![tactic(auto)]

mod by_place;
mod found;
mod index;
mod kept;
mod members;
mod moves;
mod name_order;
mod names;
mod parts;
mod place;
mod ranges;
mod ranks;
mod row;
mod spelled;
mod table;
mod tile;
mod tiling;

pub use found::Found;
pub use kept::{KeptList, KeptPlace};
pub use moves::Moves;
pub use place::Place;
pub use row::SymbolRow;
pub use table::Table;
pub use tile::Tile;

//! Descriptions and places as arguments of cases, and the reload that the cases of tables share.
#![tactic(auto)]

mod description;
mod places;
mod templates;

pub use description::{description_of, types_of};
pub use places::{area, is_in_old_world, moves, place, say_area, say_place};
pub use templates::{filled, raw};

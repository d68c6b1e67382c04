//! The bytes of a port: blocks of memory that threads share, and the image over them.
#![tactic(auto)]

mod block;
mod cell;
mod image;
mod parts;
mod scalar;
mod span;
#[cfg(test)]
mod tests;

pub use cell::Cell;
pub use image::{Image, MAX_IMAGE};
pub use parts::{Parts, all_else_stays, each_part_stands};
pub use scalar::Scalar;
pub use span::Span;

//! Structures and their members.

use crate::Shape;
use ads_base::{ListOf, Octets};

/// A member of a structure.
#[derive(Debug, Drop)]
pub struct Member {
    pub name: Octets,
    pub kind: Shape,
    pub comment: Octets,
}

/// The members of a structure, in the order in which they lie.
pub type Members = ListOf<Member>;

/// A structure.
#[derive(Debug, Drop)]
pub struct StructType {
    pub name: Octets,
    pub members: Members,
}

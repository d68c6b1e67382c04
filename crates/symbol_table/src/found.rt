//! What a path leads to.

use crate::Place;
use type_layout::TypeRef;

/// A symbol, or a part of one, that a path leads to.
#[derive(Clone, Copy, Debug)]
pub struct Found<'a> {
    pub place: Place,
    /// The type of the part.
    pub kind: TypeRef<'a>,
    /// The symbol's own comment; of a member, the member's; an element has none.
    pub comment: &'a [u8],
}

//! Types of members and symbols: one element, or an array of elements.

ghost use Rattle.std.specs.Prelude.{◌≡◌};
ghost use Rattle.type_layout.specs.Shapes.{shape_of, shape_of_ref};

use crate::Kind;
use ads_base::ListOf;

/// An element: a plain type, a text, or a named type by its place in the list of types.
#[derive(Clone, Copy, Debug, PartialEq, Eq)]
pub enum Elem {
    Plain(Kind),
    /// `STRING(n)`, which has n + 1 bytes.
    Text(u16),
    /// A structure.
    Struct(u16),
    /// An enumeration.
    Enum(u16),
}

/// One dimension of an array: the least index, and the number of indexes.
#[derive(Clone, Copy, Debug, PartialEq, Eq)]
pub struct Bound {
    pub low: i32,
    pub count: u32,
}

/// The dimensions of an array. The last index moves fastest.
pub type Bounds = ListOf<Bound>;

/// A type that owns its bounds.
#[derive(Debug, Drop)]
pub enum Shape {
    One(Elem),
    Array(Bounds, Elem),
}

/// A type whose bounds are borrowed.
#[derive(Clone, Copy, Debug)]
pub enum TypeRef<'a> {
    One(Elem),
    Array(&'a [Bound], Elem),
}

impl Shape {
    /// The same type, its bounds borrowed.
    pub fn as_ref(&self) -> TypeRef<'_>
        ensures { shape_of_ref result ≡ shape_of self.now }
    {
        match self {
            Shape::One(elem) => TypeRef::One(*elem),
            Shape::Array(bounds, elem) => TypeRef::Array(bounds.as_slice(), *elem),
        }
    }
}

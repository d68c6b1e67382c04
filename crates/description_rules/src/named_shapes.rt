//! The shapes that texts name.
ghost use Rattle.std.specs.Prelude.{◌≡◌, length, option_map, IfSome};
ghost use Rattle.spec_plant.specs.Shapes.{shape_of_text};
ghost use Rattle.spec_rules.specs.Described.{shape_described};
ghost use Rattle.type_layout.specs.NamedTypes.{types_of};
ghost use Rattle.description_rules.specs.KnownTypes.{IsKnown};
ghost use Rattle.description_rules.specs.NamedShapes.{shape_read};
ghost use Rattle.description_rules.specs.Within.{IsWithin};

use crate::known_types::KnownTypes;
use crate::shapes::elem_named;
use type_layout::{Elem, Ends, Kind, read_type_text};

/// The dimensions of a type, and its element among the types that are known.
#[derive(Clone, Copy)]
pub struct NamedShape {
    /// The number of dimensions, 0 where it is no array.
    pub count: u8,
    pub first: Ends,
    pub second: Ends,
    pub third: Ends,
    pub elem: Elem,
}

const NO_ENDS: Ends = Ends { low: 0, high: 0 };

/// The shape that a text names. None exactly where it names none.
#[tactic(auto, unfolding(spec_plant::specs::Shapes::shape_of_text))]
pub fn named_shape(known: &KnownTypes, text: &[u8]) -> Option<NamedShape>
    requires { IsKnown known.now }
    ensures value { option_map shape_read result ≡ shape_of_text (types_of known.now.types) text.now }
    ensures within { IfSome result (λ s. IsWithin (length known.now.types) s.elem) }
{
    let t = read_type_text(text)?;
    let elem = elem_named(known, t.elem)?;
    Some(NamedShape {
        count: t.count,
        first: t.first,
        second: t.second,
        third: t.third,
        elem,
    })
}

/// The shape that a text names, and that of a BOOL where it names none.
pub fn described_shape(known: &KnownTypes, text: &[u8]) -> NamedShape
    requires { IsKnown known.now }
    ensures value { shape_read result ≡ shape_described (types_of known.now.types) text.now }
    ensures within { IsWithin (length known.now.types) result.elem }
{
    match named_shape(known, text) {
        Some(shape) => shape,
        None => NamedShape {
            count: 0,
            first: NO_ENDS,
            second: NO_ENDS,
            third: NO_ENDS,
            elem: Elem::Plain(Kind::Bool),
        },
    }
}

//! The types that texts name.
ghost use Rattle.std.specs.Prelude.{◌≡◌, ◌≤◌, ◌<◌, length, map, position, option_map, nat_le, not, IfSome, IfOk};
ghost use Rattle.spec_plant.specs.Listed.{type_name, is_structure};
ghost use Rattle.spec_plant.specs.TypeTexts as texts;
ghost use Rattle.spec_plant.specs.Shapes.{place_named, elem_at, elem_named};
ghost use Rattle.type_layout.specs.Shapes.{elem_of};
ghost use Rattle.type_layout.specs.ReadTexts.{elem_text_of};
ghost use Rattle.type_layout.specs.NamedTypes.{types_of, named_type_of};
ghost use Rattle.description_rules.specs.KnownTypes.{IsKnown};
ghost use Rattle.description_rules.specs.Within.{IsWithin};

use crate::known_types::KnownTypes;
use type_layout::{Elem, ElemText, NamedType};

/// The element that a text names among the types that are known.
pub fn elem_named(known: &KnownTypes, elem: ElemText<'_>) -> Option<Elem>
    requires { IsKnown known.now }
    ensures value { option_map elem_of result ≡ elem_named (types_of known.now.types) (elem_text_of elem.entry) }
    ensures within { IfSome result (IsWithin (length known.now.types)) }
{
    match elem {
        ElemText::Plain(kind) => Some(Elem::Plain(kind)),
        ElemText::Text(n) => Some(Elem::Text(n)),
        ElemText::Named(name) => {
            let place = place_named(known, name)?;
            Some(elem_at(known.types.as_slice(), place))
        }
    }
}

// The place of the first type with this name, ASCII case aside.
fn place_named(known: &KnownTypes, name: &[u8]) -> Option<usize>
    requires { IsKnown known.now }
    ensures place { result ≡ place_named (types_of known.now.types) name.now }
    ensures within { IfSome result (λ i. i < length known.now.types) }
{
    match known.names.find(name) {
        Some(place) => Some(place as usize),
        None => None,
    }
}

/// The name of a type.
pub fn name_of(t: &NamedType) -> &[u8]
    ensures { result.now ≡ type_name (named_type_of t.now) }
{
    match t {
        NamedType::Struct(s) => s.name.as_slice(),
        NamedType::Enum(e) => e.name.as_slice(),
    }
}

fn elem_at(types: &[NamedType], place: usize) -> Elem
    requires few { length types.now ≤ 1000 }
    requires within { place < length types.now }
    ensures value { elem_of result ≡ elem_at (types_of types.now) place }
    ensures within { IsWithin (length types.now) result }
{
    if is_structure(&types[place]) {
        Elem::Struct(place as u16)
    } else {
        Elem::Enum(place as u16)
    }
}

fn is_structure(t: &NamedType) -> bool
    ensures { result ≡ is_structure (named_type_of t.now) }
{
    match t {
        NamedType::Struct(_) => true,
        NamedType::Enum(_) => false,
    }
}

//! How long canonical texts of types are.
ghost use Rattle.std.specs.Prelude.{◌≡◌, ◌≤◌, ◌<◌, ◌+◌, ◌^◌, length, map};
ghost use Rattle.std.specs.Fmt.{signed_decimal};
ghost use Rattle.spec_plant.specs.Plain.{kind_name};
ghost use Rattle.spec_plant.specs.Spelling.{type_text, bound_text, high_of, joined_by_comma};
ghost use Rattle.spec_plant.specs.Trees.{trees_of, elem_tree, tree_at, tree_of};
ghost use Rattle.spec_plant.specs.Shapes.{bound_between};
ghost use Rattle.spec_rules.specs.Described.{shape_described};
ghost use Rattle.type_layout.specs.Shapes.{kind_of, elem_of};
ghost use Rattle.type_layout.specs.ReadTexts.{ends_of};
ghost use Rattle.type_layout.specs.NamedTypes.{types_of};
ghost use Rattle.description_rules.specs.KnownTypes.{IsKnown};
ghost use Rattle.description_rules.specs.NamedShapes.{ends_read};
ghost use Rattle.description_rules.specs.Within.{IsWithin};

use crate::decimal_lens::{decimal_len, signed_decimal_len};
use crate::dimensions::index_count;
use crate::known_types::KnownTypes;
use crate::named_shapes::{NamedShape, described_shape};
use crate::shapes::name_of;
use type_layout::{Elem, Ends, Kind, NamedType};

/// The length of the canonical text of the type that a text names.
#[tactic(auto, using(crate::proofs::LengthLemmas::lengths), unfolding(spec_plant::specs::Spelling::type_text))]
pub fn type_text_len(known: &KnownTypes, text: &[u8]) -> u128
    requires { IsKnown known.now }
    ensures value { result ≡ length (type_text (tree_of (types_of known.now.types) (shape_described (types_of known.now.types) text.now))) }
    ensures bound { result ≤ 2 ^ 69 }
{
    let shape = described_shape(known, text);
    let element = elem_text_len(known.types.as_slice(), shape.elem);
    if shape.count == 0 {
        return element;
    }
    12 + bounds_len(&shape) + element
}

// The length of the dimensions of an array, with commas between them.
#[tactic(auto, using(crate::proofs::LengthLemmas::lengths))]
fn bounds_len(s: &NamedShape) -> u128
    ensures value { result ≡ length (joined_by_comma (map bound_text (map bound_between (ends_read s.now)))) }
    ensures bound { result ≤ 2 ^ 68 }
{
    let first = bound_len(s.first);
    let second = bound_len(s.second);
    let third = bound_len(s.third);
    match s.count {
        0 => 0,
        1 => first,
        2 => first + 1 + second,
        _ => first + 1 + second + 1 + third,
    }
}

// The length of one dimension, as `1..3`.
#[tactic(auto, using(crate::proofs::LengthLemmas::lengths))]
fn bound_len(e: Ends) -> u128
    ensures value { result ≡ length (bound_text (bound_between (ends_of e))) }
    ensures bound { result ≤ 2 ^ 66 + 2 }
{
    low_len(e) + 2 + high_len(e)
}

fn low_len(e: Ends) -> u128
    ensures value { result ≡ length (signed_decimal e.low) }
    ensures bound { result ≤ 2 ^ 65 }
{
    signed_decimal_len(e.low as i64)
}

fn high_len(e: Ends) -> u128
    ensures value { result ≡ length (signed_decimal (high_of (bound_between (ends_of e)))) }
    ensures bound { result ≤ 2 ^ 65 }
{
    signed_decimal_len(high_of(e))
}

fn high_of(e: Ends) -> i64
    ensures { result ≡ high_of (bound_between (ends_of e)) }
{
    e.low as i64 + index_count(e) as i64 - 1
}

#[tactic(auto, using(crate::proofs::LengthLemmas::lengths), unfolding(spec_plant::specs::Spelling::type_text))]
fn elem_text_len(types: &[NamedType], elem: Elem) -> u128
    requires { IsWithin (length types.now) elem }
    ensures value { result ≡ length (type_text (elem_tree (trees_of (types_of types.now)) (elem_of elem))) }
    ensures bound { result ≤ 2 ^ 64 + 8 }
{
    match elem {
        Elem::Plain(kind) => kind_name_len(kind),
        Elem::Text(n) => 8 + decimal_len(n as u64),
        Elem::Struct(place) => name_len_at(types, place as usize) as u128,
        Elem::Enum(place) => name_len_at(types, place as usize) as u128,
    }
}

fn name_len_at(types: &[NamedType], place: usize) -> usize
    requires { place < length types.now }
    ensures { result ≡ length (type_text (tree_at (trees_of (types_of types.now)) place)) }
{
    name_of(&types[place]).len()
}

fn kind_name_len(kind: Kind) -> u128
    ensures value { result ≡ length (kind_name (kind_of kind)) }
    ensures small { result ≤ 5 }
{
    match kind {
        Kind::Int => 3,
        Kind::Bool | Kind::Sint | Kind::Byte | Kind::Uint | Kind::Word | Kind::Dint => 4,
        Kind::Time | Kind::Lint | Kind::Real => 4,
        Kind::Usint | Kind::Udint | Kind::Dword | Kind::Ulint | Kind::Lword | Kind::Lreal => 5,
    }
}

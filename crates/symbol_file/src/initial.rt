//! The bytes that a symbol begins with.
ghost use Rattle.std.specs.Prelude.{◌≡◌, [], replicate, slice_get, option_map, unwrap_or, IfOk};
ghost use Rattle.std.specs.Option.{option_map_or};
ghost use Rattle.spec_plant.specs.Listed as listed;
ghost use Rattle.spec_plant.specs.Accepted.{number_bytes};
ghost use Rattle.spec_plant.specs.Trees.{tree_of};
ghost use Rattle.spec_plant.specs.Sizes.{type_size};
ghost use Rattle.spec_rules.specs.Described.{initial_described, default_bytes, first_value_bytes, bytes_of_hex};
ghost use Rattle.type_layout.specs.Shapes.{kind_of, elem_of, shape_of};
ghost use Rattle.type_layout.specs.NamedTypes.{types_of, named_type_of, enumeration_of};
ghost use Rattle.description_table.specs.Views.{text_view};

use ads_base::{NoMemory, Octets};
use description_rules::{first_bytes, read_hex, unsigned_of};
use std::alloc::Global;
use type_layout::{Elem, EnumType, EnumValue, Kind, NamedType, Shape};

/// The bytes that a symbol of this type and size begins with: those of the text, where there is one.
pub fn initial_bytes(
    alloc: Global,
    types: &[NamedType],
    kind: &Shape,
    size: u32,
    text: Option<&[u8]>,
) -> Result<Octets, NoMemory>
    requires size { size ≡ type_size (tree_of (types_of types.now) (shape_of kind.now)) }
    ensures { IfOk result (λ bytes. bytes ≡ initial_described (types_of types.now) (shape_of kind.now) (option_map text_view text.entry)) }
{
    match text {
        None => default_bytes(alloc, types, kind, size),
        Some(text) => bytes_of_hex(alloc, text),
    }
}

fn bytes_of_hex(alloc: Global, text: &[u8]) -> Result<Octets, NoMemory>
    ensures { IfOk result (λ bytes. bytes ≡ unwrap_or (bytes_of_hex text.now) []) }
{
    match read_hex(alloc, text)? {
        None => Ok(Octets::new(alloc)),
        Some(bytes) => Ok(Octets::from_vec(bytes)),
    }
}

fn default_bytes(
    alloc: Global,
    types: &[NamedType],
    kind: &Shape,
    size: u32,
) -> Result<Octets, NoMemory>
    requires size { size ≡ type_size (tree_of (types_of types.now) (shape_of kind.now)) }
    ensures { IfOk result (λ bytes. bytes ≡ default_bytes (types_of types.now) (shape_of kind.now)) }
{
    match kind {
        Shape::One(elem) => default_elem_bytes(alloc, types, *elem, size),
        Shape::Array(_, _) => zeros(alloc, size),
    }
}

fn default_elem_bytes(
    alloc: Global,
    types: &[NamedType],
    elem: Elem,
    size: u32,
) -> Result<Octets, NoMemory>
    requires size { size ≡ type_size (tree_of (types_of types.now) (listed.One (elem_of elem))) }
    ensures { IfOk result (λ bytes. bytes ≡ default_bytes (types_of types.now) (listed.One (elem_of elem))) }
{
    match elem {
        Elem::Enum(place) => first_value_at(alloc, types, place as usize),
        _ => zeros(alloc, size),
    }
}

fn zeros(alloc: Global, size: u32) -> Result<Octets, NoMemory>
    ensures { IfOk result (λ bytes. bytes ≡ replicate size 0) }
{
    let bytes = Vec::from_elem(alloc, 0, size as usize)?;
    Ok(Octets::from_vec(bytes))
}

// The bytes of the first value of the enumeration at a place.
fn first_value_at(alloc: Global, types: &[NamedType], place: usize) -> Result<Octets, NoMemory>
    ensures { IfOk result (λ bytes. bytes ≡ option_map_or first_value_bytes (slice_get (types_of types.now) place) []) }
{
    if place < types.len() {
        first_value_of(alloc, &types[place])
    } else {
        Ok(Octets::new(alloc))
    }
}

fn first_value_of(alloc: Global, t: &NamedType) -> Result<Octets, NoMemory>
    ensures { IfOk result (λ bytes. bytes ≡ first_value_bytes (named_type_of t.now)) }
{
    match t {
        NamedType::Struct(_) => Ok(Octets::new(alloc)),
        NamedType::Enum(e) => first_value_in(alloc, e),
    }
}

fn first_value_in(alloc: Global, e: &EnumType) -> Result<Octets, NoMemory>
    ensures { IfOk result (λ bytes. bytes ≡ first_value_bytes (enumeration_of e.now)) }
{
    first_value_among(alloc, e.base, e.values.as_slice())
}

fn first_value_among(alloc: Global, base: Kind, values: &[EnumValue]) -> Result<Octets, NoMemory>
    ensures { IfOk result (λ bytes. bytes ≡ option_map_or (λ v. number_bytes (kind_of base) v.number) (slice_get values.now 0) []) }
{
    match values.first() {
        None => Ok(Octets::new(alloc)),
        Some(value) => number_bytes(alloc, base, value.number),
    }
}

fn number_bytes(alloc: Global, base: Kind, number: i64) -> Result<Octets, NoMemory>
    ensures { IfOk result (λ bytes. bytes ≡ number_bytes (kind_of base) number) }
{
    let all = unsigned_of(number).to_le_bytes();
    Octets::copy_of(alloc, first_bytes(&all, base.size() as usize))
}

//! Values of enumerations as bytes.
ghost use Rattle.std.specs.Prelude.{◌≡◌, ◌≤◌, take, bytes_eq, slice_get, false};
ghost use Rattle.std.specs.List.{list_any};
ghost use Rattle.std.specs.Option.{option_map_or};
ghost use Rattle.std.specs.Int.{to_le_bytes, w64};
ghost use Rattle.spec_plant.specs.Accepted.{is_value_at, is_value_of, number_bytes};
ghost use Rattle.type_layout.specs.Shapes.{kind_of};
ghost use Rattle.type_layout.specs.NamedTypes.{types_of, named_type_of, enumeration_of};
ghost use Rattle.description_rules.specs.Numbers.{unsigned_of};

use type_layout::{EnumType, EnumValue, Kind, NamedType};

/// Whether there is an enumeration at a place, and bytes are those of one of its values.
pub fn is_value_at(types: &[NamedType], place: usize, bytes: &[u8]) -> bool
    ensures { result ≡ is_value_at bytes.now (types_of types.now) place }
{
    if place < types.len() {
        is_value_of(&types[place], bytes)
    } else {
        false
    }
}

fn is_value_of(t: &NamedType, bytes: &[u8]) -> bool
    ensures { result ≡ is_value_of bytes.now (named_type_of t.now) }
{
    match t {
        NamedType::Struct(_) => false,
        NamedType::Enum(e) => is_value_in(e, bytes),
    }
}

#[tactic(auto, using(crate::proofs::Mapped::mapped))]
fn is_value_in(e: &EnumType, bytes: &[u8]) -> bool
    ensures { result ≡ is_value_of bytes.now (enumeration_of e.now) }
{
    is_value_among(e.base, e.values.as_slice(), bytes)
}

fn is_value_among(base: Kind, values: &[EnumValue], bytes: &[u8]) -> bool
    ensures { result ≡ list_any (λ v. bytes_eq (number_bytes (kind_of base) v.number) bytes.now) values.now }
{
    values.iter().any(|v| has_bytes(base, v.number, bytes))
}

fn has_bytes(base: Kind, number: i64, bytes: &[u8]) -> bool
    ensures { result ≡ bytes_eq (number_bytes (kind_of base) number) bytes.now }
{
    let all = unsigned_of(number).to_le_bytes();
    first_bytes(&all, base.size() as usize) == bytes
}

pub fn first_bytes(all: &[u8; 8], size: usize) -> &[u8]
    requires { size ≤ 8 }
    ensures { result.now ≡ take size all.now }
{
    &all[..size]
}

// A number in two's complement.
pub fn unsigned_of(n: i64) -> u64
    ensures { result ≡ unsigned_of n }
{
    if 0 <= n {
        n as u64
    } else {
        let less = (0 - (n + 1)) as u64;
        u64::MAX - less
    }
}

//! Canonical texts of types.

ghost use Rattle.std.specs.Prelude.{◌≡◌, ◌<◌, ◌++◌, ◌∷◌, map, flat_map, length, OnOk, OnErr, codes, decimal};
ghost use Rattle.spec_plant.specs.Spelling.{type_text, bound_text, high_of, joined_by_comma};
ghost use Rattle.spec_plant.specs.Trees.{tree_of, trees_of, elem_tree, tree_at};
ghost use Rattle.type_layout.specs.Shapes.{elem_of, bound_of, bounds_of, shape_of_ref};
ghost use Rattle.type_layout.specs.NamedTypes.{types_of};
ghost use Rattle.type_layout.specs.Spelled.{IsThere, NamesThere, Extends, comma_bound};

use crate::{Bound, Elem, NamedType, TypeRef, Types};
use ads_base::{NoMemory, Octets};
use std::alloc::Global;

/// Appends the canonical text of a type: words in upper case, names as declared, as `ARRAY [1..3] OF Axis`.
pub fn type_text(
    alloc: Global,
    types: &Types,
    t: TypeRef<'_>,
    out: &mut Octets,
) -> Result<(), NoMemory>
    requires { NamesThere (types_of types.now) (shape_of_ref t) }
    ensures ok { OnOk result (out.new
        ≡ out.old ++ type_text (tree_of (types_of types.now) (shape_of_ref t.entry))) }
    ensures no_memory { OnErr result (out.new ≡ out.old) }
{
    let before = out.len();
    let put = append_type(alloc, types.as_slice(), t, out);
    out.cut_back(before, put)
}

// After want of memory a part of the text may stand there.
#[tactic(auto, unfolding(spec_plant::specs::Spelling::type_text))]
fn append_type(
    alloc: Global,
    types: &[NamedType],
    t: TypeRef<'_>,
    out: &mut Octets,
) -> Result<(), NoMemory>
    requires { NamesThere (types_of types.now) (shape_of_ref t) }
    ensures ok { OnOk result (out.new
        ≡ out.old ++ type_text (tree_of (types_of types.now) (shape_of_ref t.entry))) }
    ensures no_memory { OnErr result (Extends out.old out.new) }
{
    match t {
        TypeRef::One(elem) => put_elem(alloc, types, elem, out),
        TypeRef::Array(bounds, elem) => {
            out.put(alloc, b"ARRAY [")?;
            append_bounds(alloc, bounds, out)?;
            out.put(alloc, b"] OF ")?;
            put_elem(alloc, types, elem, out)
        }
    }
}

#[tactic(auto, unfolding(spec_plant::specs::Spelling::type_text))]
fn put_elem(
    alloc: Global,
    types: &[NamedType],
    elem: Elem,
    out: &mut Octets,
) -> Result<(), NoMemory>
    requires { IsThere (types_of types.now) (elem_of elem) }
    ensures ok { OnOk result (out.new
        ≡ out.old ++ type_text (elem_tree (trees_of (types_of types.now)) (elem_of elem))) }
    ensures no_memory { OnErr result (out.new ≡ out.old) }
{
    match elem {
        Elem::Plain(kind) => out.put(alloc, kind.name().as_bytes()),
        Elem::Text(n) => put_string(alloc, n, out),
        Elem::Struct(place) => out.put(alloc, name_at(types, place)),
        Elem::Enum(place) => out.put(alloc, name_at(types, place)),
    }
}

fn put_string(alloc: Global, n: u16, out: &mut Octets) -> Result<(), NoMemory>
    ensures ok { OnOk result (out.new ≡ out.old ++ codes "STRING(" ++ decimal n ++ codes ")") }
    ensures no_memory { OnErr result (out.new ≡ out.old) }
{
    let text = format!(in alloc; "STRING({n})")?;
    out.put(alloc, text.as_bytes())
}

// The name of the type at a place.
fn name_at(types: &[NamedType], place: u16) -> &[u8]
    requires { place < length types.now }
    ensures { result.now ≡ type_text (tree_at (trees_of (types_of types.now)) place) }
{
    match &types[place as usize] {
        NamedType::Struct(structure) => structure.name.as_slice(),
        NamedType::Enum(enumeration) => enumeration.name.as_slice(),
    }
}

// After want of memory a part of the text may stand there.
pub(crate) fn append_bounds(
    alloc: Global,
    bounds: &[Bound],
    out: &mut Octets,
) -> Result<(), NoMemory>
    ensures ok { OnOk result (out.new
        ≡ out.old ++ joined_by_comma (map bound_text (bounds_of bounds.now))) }
    ensures no_memory { OnErr result (Extends out.old out.new) }
{
    let [first, rest @ ..] = bounds else {
        return Ok(());
    };
    put_bound(alloc, *first, out)?;
    append_more_bounds(alloc, rest, out)
}

fn append_more_bounds(alloc: Global, bounds: &[Bound], out: &mut Octets) -> Result<(), NoMemory>
    ensures ok { OnOk result (out.new ≡ out.old ++ flat_map comma_bound bounds.now) }
    ensures no_memory { OnErr result (Extends out.old out.new) }
{
    for bound in bounds {
        append_comma_bound(alloc, *bound, out)?;
    }
    Ok(())
}

fn append_comma_bound(alloc: Global, bound: Bound, out: &mut Octets) -> Result<(), NoMemory>
    ensures ok { OnOk result (out.new ≡ out.old ++ comma_bound bound) }
    ensures no_memory { OnErr result (Extends out.old out.new) }
{
    out.push(alloc, b',')?;
    put_bound(alloc, bound, out)
}

// `1..3`
fn put_bound(alloc: Global, bound: Bound, out: &mut Octets) -> Result<(), NoMemory>
    ensures ok { OnOk result (out.new ≡ out.old ++ bound_text (bound_of bound)) }
    ensures no_memory { OnErr result (out.new ≡ out.old) }
{
    let low = bound.low;
    let high = greatest_index(bound);
    let text = format!(in alloc; "{low}..{high}")?;
    out.put(alloc, text.as_bytes())
}

fn greatest_index(bound: Bound) -> i64
    ensures { result ≡ high_of (bound_of bound) }
{
    i64::from(bound.low) + i64::from(bound.count) - 1
}

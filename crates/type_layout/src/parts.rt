//! Parts of types: members of structures and elements of arrays.

ghost use Rattle.std.specs.Prelude.{◌≡◌, ◌+◌, ◌-◌, ◌*◌, ◌^◌, ◌<◌, ◌≤◌, ◌∷◌, [], IsTrue, IfSome, Some, option_map, bytes_eq};
ghost use Rattle.name_paths.specs.Identifier.{lower};
ghost use Rattle.name_paths.specs.Steps.{step_of};
ghost use Rattle.name_paths.specs.Indexes.{numbers_of_indexes};
ghost use Rattle.spec_plant.specs.Listed.{Array};
ghost use Rattle.spec_plant.specs.Trees.{tree_of, elem_tree, tree_at, trees_of};
ghost use Rattle.spec_plant.specs.Sizes.{element_count};
ghost use Rattle.spec_plant.specs.Parts.{part_of, part_of_member, within, element_from, element_of, member_of};
ghost use Rattle.spec_plant.specs.AcceptedTypes.{AreTypes, IsSized, LIMIT, is_elem, is_structure_at};
ghost use Rattle.type_layout.specs.Shapes.{elem_of, bound_of, bounds_of, shape_of_ref};
ghost use Rattle.type_layout.specs.NamedTypes.{types_of};
ghost use Rattle.type_layout.specs.Extents.{AreExtents};
ghost use Rattle.type_layout.specs.FoundParts.{part_in, IsSizedPart};

use crate::extent::{Extent, elem_extent, next_multiple, type_extent};
use crate::{Bound, Elem, NamedType, TypeRef, Types};
use name_paths::{Indexes, Step};

/// The part that a step leads to: its first byte within the whole, and its type. None where a name
/// meets no structure or no member of that name (ASCII case aside), or indexes meet no array,
/// another number of dimensions, or a bound that they leave.
pub fn member<'a>(types: &'a Types, t: TypeRef<'a>, step: &Step<'_>) -> Option<(u32, TypeRef<'a>)>
    requires types { AreTypes (types_of types.now) }
    requires sized { IsSized (types_of types.now) (shape_of_ref t) }
    ensures part { option_map (part_in (types_of types.now)) result
        ≡ part_of (tree_of (types_of types.now) (shape_of_ref t.entry)) (step_of step.now) }
    ensures sized { IfSome result (IsSizedPart (types_of types.now)) }
{
    member_among(types.as_slice(), &[], t, step)
}

// The same, where the sizes of the first named types are known.
pub(crate) fn member_among<'a>(
    types: &'a [NamedType],
    known: &[Extent],
    t: TypeRef<'a>,
    step: &Step<'_>,
) -> Option<(u32, TypeRef<'a>)>
    requires types { AreTypes (types_of types.now) }
    requires known { AreExtents (types_of types.now) known.now }
    requires sized { IsSized (types_of types.now) (shape_of_ref t) }
    ensures part { option_map (part_in (types_of types.now)) result
        ≡ part_of (tree_of (types_of types.now) (shape_of_ref t.entry)) (step_of step.now) }
    ensures sized { IfSome result (IsSizedPart (types_of types.now)) }
{
    match t {
        TypeRef::One(elem) => match step {
            Step::Name(name) => element_member(types, known, elem, name),
            Step::Index(_) => None,
        },
        TypeRef::Array(bounds, elem) => match step {
            Step::Name(_) => None,
            Step::Index(indexes) => array_element(types, known, bounds, elem, indexes),
        },
    }
}

// The element of an array with these indexes.
fn array_element<'a>(
    types: &'a [NamedType],
    known: &[Extent],
    bounds: &[Bound],
    elem: Elem,
    indexes: &Indexes,
) -> Option<(u32, TypeRef<'a>)>
    requires types { AreTypes (types_of types.now) }
    requires known { AreExtents (types_of types.now) known.now }
    requires sized { IsSized (types_of types.now) (Array (bounds_of bounds.now) (elem_of elem)) }
    ensures part { option_map (part_in (types_of types.now)) result
        ≡ element_of (tree_of (types_of types.now) (Array (bounds_of bounds.now) (elem_of elem)))
        (numbers_of_indexes indexes.now) }
    ensures sized { IfSome result (IsSizedPart (types_of types.now)) }
{
    let number = element_number(bounds, indexes)?;
    let size = elem_extent(types, known, elem).size;
    Some((number * size, TypeRef::One(elem)))
}

// The member with this name, where the element is a structure.
fn element_member<'a>(
    types: &'a [NamedType],
    known: &[Extent],
    elem: Elem,
    name: &[u8],
) -> Option<(u32, TypeRef<'a>)>
    requires types { AreTypes (types_of types.now) }
    requires known { AreExtents (types_of types.now) known.now }
    requires named { IsTrue (is_elem (types_of types.now) (elem_of elem)) }
    ensures part { option_map (part_in (types_of types.now)) result
        ≡ option_map part_of_member
        (member_of (elem_tree (trees_of (types_of types.now)) (elem_of elem)) name.now) }
    ensures sized { IfSome result (IsSizedPart (types_of types.now)) }
{
    match elem {
        Elem::Struct(place) => structure_member(types, known, place, name),
        Elem::Plain(_) => None,
        Elem::Text(_) => None,
        Elem::Enum(_) => None,
    }
}

// The member of a structure with this name.
fn structure_member<'a>(
    types: &'a [NamedType],
    known: &[Extent],
    place: u16,
    name: &[u8],
) -> Option<(u32, TypeRef<'a>)>
    requires types { AreTypes (types_of types.now) }
    requires known { AreExtents (types_of types.now) known.now }
    requires there { IsTrue (is_structure_at (types_of types.now) place) }
    ensures part { option_map (part_in (types_of types.now)) result
        ≡ option_map part_of_member
        (member_of (tree_at (trees_of (types_of types.now)) place) name.now) }
    ensures sized { IfSome result (IsSizedPart (types_of types.now)) }
{
    let NamedType::Struct(structure) = &types[place as usize] else {
        unreachable!();
    };
    let members = structure.members.as_slice();
    let mut end = 0;
    for member in members {
        let kind = member.kind.as_ref();
        let extent = type_extent(types, known, kind);
        let start = next_multiple(end, extent.align);
        if is_same_name(member.name.as_slice(), name) {
            return Some((start, kind));
        }
        end = start + extent.size;
    }
    None
}

// Whether two names are the same, ASCII case aside.
pub(crate) fn is_same_name(a: &[u8], b: &[u8]) -> bool
    ensures { result ≡ bytes_eq (lower a.now) (lower b.now) }
{
    a.eq_ignore_ascii_case(b)
}

// The place of an element among all of an array, the last index moving fastest.
fn element_number(bounds: &[Bound], indexes: &Indexes) -> Option<u32>
    requires { element_count (bounds_of bounds.now) ≤ LIMIT }
    ensures { result ≡ element_from 0 (bounds_of bounds.now) (numbers_of_indexes indexes.now) }
{
    if indexes.count == 1 {
        number_in_row(bounds, indexes.i)
    } else if indexes.count == 2 {
        number_in_plane(bounds, indexes.i, indexes.j)
    } else {
        number_in_space(bounds, indexes.i, indexes.j, indexes.k)
    }
}

fn number_in_row(bounds: &[Bound], i: i32) -> Option<u32>
    ensures { result ≡ element_from 0 (bounds_of bounds.now) (i ∷ []) }
{
    let [first] = bounds else {
        return None;
    };
    index_within(*first, i)
}

fn number_in_plane(bounds: &[Bound], i: i32, j: i32) -> Option<u32>
    requires { element_count (bounds_of bounds.now) ≤ LIMIT }
    ensures { result ≡ element_from 0 (bounds_of bounds.now) (i ∷ j ∷ []) }
{
    let [first, second] = bounds else {
        return None;
    };
    let row = index_within(*first, i)?;
    let column = index_within(*second, j)?;
    Some(row * second.count + column)
}

fn number_in_space(bounds: &[Bound], i: i32, j: i32, k: i32) -> Option<u32>
    requires { element_count (bounds_of bounds.now) ≤ LIMIT }
    ensures { result ≡ element_from 0 (bounds_of bounds.now) (i ∷ j ∷ k ∷ []) }
{
    let [first, second, third] = bounds else {
        return None;
    };
    let layer = index_within(*first, i)?;
    let row = index_within(*second, j)?;
    // Before anything is multiplied: with no third index, two counts may be as large as they like.
    let column = index_within(*third, k)?;
    Some((layer * second.count + row) * third.count + column)
}

// An index less the least one, where it lies within the bound.
fn index_within(bound: Bound, index: i32) -> Option<u32>
    ensures number { result ≡ within (bound_of bound) index }
    ensures below { IfSome result (λ k. k < bound.count) }
{
    let distance = i64::from(index) - i64::from(bound.low);
    if distance >= 0 && distance < i64::from(bound.count) {
        Some(distance as u32)
    } else {
        None
    }
}

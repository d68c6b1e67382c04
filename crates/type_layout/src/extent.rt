//! How many bytes a type has, and at multiples of what it stands.

ghost use Rattle.std.specs.Prelude.{◌≡◌, ◌+◌, ◌^◌, ◌<◌, ◌≤◌, IsTrue};
ghost use Rattle.spec_plant.specs.Sizes.{aligned, element_count, type_size, type_align};
ghost use Rattle.spec_plant.specs.Trees.{tree_of, trees_of, elem_tree, tree_at};
ghost use Rattle.spec_plant.specs.AcceptedTypes.{AreTypes, IsSized, LIMIT, is_elem, is_structure_at, is_enumeration_at};
ghost use Rattle.type_layout.specs.Shapes.{elem_of, bounds_of, shape_of_ref};
ghost use Rattle.type_layout.specs.NamedTypes.{types_of};
ghost use Rattle.type_layout.specs.Extents.{AreExtents, HasExtent};

use crate::{Bound, Elem, NamedType, TypeRef, Types};

/// The number of bytes of a type.
pub fn size(types: &Types, t: TypeRef<'_>) -> u32
    requires types { AreTypes (types_of types.now) }
    requires sized { IsSized (types_of types.now) (shape_of_ref t) }
    ensures { result ≡ type_size (tree_of (types_of types.now) (shape_of_ref t.entry)) }
{
    type_extent(types.as_slice(), &[], t).size
}

/// The alignment of a type: the number of bytes at whose multiples it may stand.
pub fn align(types: &Types, t: TypeRef<'_>) -> u32
    requires types { AreTypes (types_of types.now) }
    requires sized { IsSized (types_of types.now) (shape_of_ref t) }
    ensures { result ≡ type_align (tree_of (types_of types.now) (shape_of_ref t.entry)) }
{
    type_extent(types.as_slice(), &[], t).align
}

/// The size and the alignment of a type.
#[derive(Clone, Copy, Debug, PartialEq, Eq)]
pub struct Extent {
    pub size: u32,
    pub align: u32,
}

// Size and alignment are found together. Those of the first named types may be known already.

#[cycle(extent)]
pub(crate) fn type_extent(types: &[NamedType], known: &[Extent], t: TypeRef<'_>) -> Extent
    requires types { AreTypes (types_of types.now) }
    requires known { AreExtents (types_of types.now) known.now }
    requires sized { IsSized (types_of types.now) (shape_of_ref t) }
    ensures { HasExtent (tree_of (types_of types.now) (shape_of_ref t.entry)) result }
{
    match t {
        TypeRef::One(elem) => elem_extent(types, known, elem),
        TypeRef::Array(bounds, elem) => {
            let each = elem_extent(types, known, elem);
            Extent {
                size: element_total(bounds) * each.size,
                align: each.align,
            }
        }
    }
}

#[cycle(extent)]
pub(crate) fn elem_extent(types: &[NamedType], known: &[Extent], elem: Elem) -> Extent
    requires types { AreTypes (types_of types.now) }
    requires known { AreExtents (types_of types.now) known.now }
    requires named { IsTrue (is_elem (types_of types.now) (elem_of elem)) }
    ensures { HasExtent (elem_tree (trees_of (types_of types.now)) (elem_of elem)) result }
{
    match elem {
        Elem::Plain(kind) => Extent {
            size: kind.size(),
            align: kind.size(),
        },
        Elem::Text(n) => Extent {
            size: u32::from(n) + 1,
            align: 1,
        },
        Elem::Struct(place) => {
            if (place as usize) < known.len() {
                known[place as usize]
            } else {
                struct_extent(types, known, place)
            }
        }
        Elem::Enum(place) => enum_extent(types, place),
    }
}

#[cycle(extent)]
pub(crate) fn struct_extent(types: &[NamedType], known: &[Extent], place: u16) -> Extent
    requires types { AreTypes (types_of types.now) }
    requires known { AreExtents (types_of types.now) known.now }
    requires there { IsTrue (is_structure_at (types_of types.now) place) }
    ensures { HasExtent (tree_at (trees_of (types_of types.now)) place) result }
{
    let NamedType::Struct(structure) = &types[place as usize] else {
        unreachable!();
    };
    let members = structure.members.as_slice();
    let mut end = 0;
    let mut greatest = 1;
    for member in members {
        let extent = type_extent(types, known, member.kind.as_ref());
        end = next_multiple(end, extent.align) + extent.size;
        greatest = extent.align.max(greatest);
    }
    Extent {
        size: next_multiple(end, greatest),
        align: greatest,
    }
}

pub(crate) fn enum_extent(types: &[NamedType], place: u16) -> Extent
    requires types { AreTypes (types_of types.now) }
    requires there { IsTrue (is_enumeration_at (types_of types.now) place) }
    ensures { HasExtent (tree_at (trees_of (types_of types.now)) place) result }
{
    let NamedType::Enum(enumeration) = &types[place as usize] else {
        unreachable!();
    };
    Extent {
        size: enumeration.base.size(),
        align: enumeration.base.size(),
    }
}

// The number of elements of an array.
pub(crate) fn element_total(bounds: &[Bound]) -> u32
    requires { element_count (bounds_of bounds.now) ≤ LIMIT }
    ensures { result ≡ element_count (bounds_of bounds.now) }
{
    match bounds {
        [] => 1,
        [first, rest @ ..] => {
            if first.count == 0 {
                0
            } else {
                first.count * element_total(rest)
            }
        }
    }
}

// The least multiple of `unit` from `at` on.
pub(crate) fn next_multiple(at: u32, unit: u32) -> u32
    requires unit { 0 < unit }
    requires fits { at + unit < 2 ^ 32 }
    ensures { result ≡ aligned at unit }
{
    at + (unit - at % unit) % unit
}

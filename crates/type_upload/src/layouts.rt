//! Size, alignment and id of types, each found once in the order of the list.

ghost use Rattle.std.specs.Prelude.{◌≡◌, ◌+◌, ◌<◌, ◌≤◌, ◌^◌, length, slice_get, Some};
ghost use Rattle.spec_plant.specs.Sizes.{aligned, element_count};
ghost use Rattle.spec_plant.specs.Trees.{PlainTree, elem_tree, tree_at, tree_of, trees_of};
ghost use Rattle.spec_plant.specs.AcceptedTypes.{AreTypes, IsSized, LIMIT, elem_within};
ghost use Rattle.type_layout.specs.Shapes.{kind_of, elem_of, bounds_of, shape_of_ref};
ghost use Rattle.type_layout.specs.NamedTypes.{types_of};
ghost use Rattle.type_upload.specs.Layouts.{AreKnown, HasLayout, reach};
ghost use Rattle.type_upload.specs.NextMembers.{bounds_within};

use type_layout::{Bound, Elem, Kind, TypeRef, Types, size};

// How a type lies in memory, and its id.
#[derive(Clone, Copy)]
pub(crate) struct Layout {
    pub size: u32,
    pub align: u32,
    pub type_id: u32,
}

// Where the members of a structure end so far, and their greatest alignment.
#[derive(Clone, Copy)]
pub(crate) struct Laid {
    pub end: u32,
    pub align: u32,
}

// The layout of a member's type, which names only types whose layouts are known.
pub(crate) fn shape_layout(types: &Types, known: &[Layout], t: TypeRef<'_>) -> Layout
    requires types { AreTypes (types_of types.now) }
    requires known { AreKnown (types_of types.now) known.now }
    requires sized { IsSized (types_of types.now) (shape_of_ref t) }
    requires earlier { reach (elem_within (shape_of_ref t)) ≤ length known.now }
    ensures { HasLayout (tree_of (types_of types.now) (shape_of_ref t.entry)) result }
{
    match t {
        TypeRef::One(elem) => elem_layout(types, known, elem),
        TypeRef::Array(bounds, elem) => {
            let each = elem_layout(types, known, elem);
            Layout {
                size: element_total(bounds) * each.size,
                align: each.align,
                type_id: 65,
            }
        }
    }
}

#[tactic(auto, unfolding(spec_plant::specs::Sizes::type_size, spec_plant::specs::Sizes::type_align))]
fn elem_layout(types: &Types, known: &[Layout], elem: Elem) -> Layout
    requires types { AreTypes (types_of types.now) }
    requires known { AreKnown (types_of types.now) known.now }
    requires earlier { reach (elem_of elem) ≤ length known.now }
    ensures { HasLayout (elem_tree (trees_of (types_of types.now)) (elem_of elem)) result }
{
    match elem {
        Elem::Plain(kind) => plain_layout(types, kind),
        Elem::Text(n) => Layout {
            size: u32::from(n) + 1,
            align: 1,
            type_id: 30,
        },
        Elem::Struct(place) => layout_at(types, known, place),
        Elem::Enum(place) => layout_at(types, known, place),
    }
}

fn layout_at(types: &Types, known: &[Layout], place: u16) -> Layout
    requires known { AreKnown (types_of types.now) known.now }
    requires there { place < length known.now }
    ensures { HasLayout (tree_at (trees_of (types_of types.now)) place) result }
{
    known[place as usize]
}

#[tactic(auto, unfolding(spec_plant::specs::Sizes::type_size, spec_plant::specs::Sizes::type_align))]
pub(crate) fn plain_layout(types: &Types, kind: Kind) -> Layout
    requires { AreTypes (types_of types.now) }
    ensures { HasLayout (PlainTree (kind_of kind)) result }
{
    let bytes = size(types, TypeRef::One(Elem::Plain(kind)));
    Layout {
        size: bytes,
        align: bytes,
        type_id: kind.type_id(),
    }
}

// The dimensions of a type.
pub(crate) fn dims_of(t: TypeRef<'_>) -> &[Bound]
    ensures { bounds_of result.now ≡ bounds_within (shape_of_ref t.entry) }
{
    match t {
        TypeRef::One(_) => &[],
        TypeRef::Array(bounds, _) => bounds,
    }
}

// The number of elements of an array.
fn element_total(bounds: &[Bound]) -> u32
    requires { element_count (bounds_of bounds.now) ≤ LIMIT }
    ensures { result ≡ element_count (bounds_of bounds.now) }
{
    match bounds {
        [] => 1,
        [first, rest @ ..] => {
            if first.count == 0 {
                0
            } else {
                first.count * element_total(rest)
            }
        }
    }
}

// The least multiple of `unit` from `at` on.
pub(crate) fn next_multiple(at: u32, unit: u32) -> u32
    requires unit { 0 < unit }
    requires fits { at + unit < 2 ^ 32 }
    ensures { result ≡ aligned at unit }
{
    at + (unit - at % unit) % unit
}

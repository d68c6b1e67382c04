//! The types of a description, and how each lies in memory.
ghost use Rattle.std.specs.Prelude.{◌≡◌, ◌≤◌, ◌<◌, ◌*◌, ◌^◌, slice_get, true, false};
ghost use Rattle.spec_plant.specs.Trees.{trees_of, elem_tree, tree_at, tree_of};
ghost use Rattle.spec_plant.specs.AcceptedTypes.{is_small_shape};
ghost use Rattle.spec_plant.specs.Sizes.{type_size};
ghost use Rattle.std.specs.Option.{option_map_or};
ghost use Rattle.spec_plant.specs.Shapes.{shape_of_text};
ghost use Rattle.spec_rules.specs.SymbolRules.{is_small};
ghost use Rattle.spec_rules.specs.Described.{shape_described};
ghost use Rattle.type_layout.specs.Shapes.{elem_of};
ghost use Rattle.type_layout.specs.NamedTypes.{types_of};
ghost use Rattle.description_rules.specs.Extents.{extent_view, extent_of};
ghost use Rattle.description_rules.specs.KnownTypes.{IsKnown};
ghost use Rattle.description_rules.specs.Known.{IsFair, IsFairArray};

use crate::dimensions::{MAX_ELEMENTS, element_count};
use crate::extents::Extent;
use crate::named_shapes::{described_shape, named_shape};
use name_index::NameIndex;
use type_layout::{Elem, Types};

/// Types, how each of them lies in memory, and where each stands by its name.
#[derive(Drop)]
pub struct KnownTypes {
    pub types: Types,
    pub extents: Vec<Extent>,
    pub names: NameIndex,
}

/// How the type that a text names lies in memory.
#[tactic(auto, unfolding(spec_plant::specs::Sizes::type_size, spec_plant::specs::Sizes::type_align, spec_plant::specs::Sizes::type_depth))]
pub fn text_extent(known: &KnownTypes, text: &[u8]) -> Extent
    requires known { IsKnown known.now }
    requires small { is_small_shape (shape_described (types_of known.now.types) text.now) ≡ true }
    ensures extent { extent_view result
        ≡ extent_of (tree_of (types_of known.now.types) (shape_described (types_of known.now.types) text.now)) }
    ensures fair { IsFairArray result }
{
    let shape = described_shape(known, text);
    let e = elem_extent(known, shape.elem);
    if shape.count == 0 {
        return e;
    }
    let size = product(element_count(&shape), e.size);
    Extent {
        size,
        align: e.align,
        depth: e.depth,
    }
}

/// The number of bytes of the type that a text names.
#[tactic(auto, unfolding(spec_plant::specs::Sizes::type_size))]
pub fn text_size(known: &KnownTypes, text: &[u8]) -> u128
    requires known { IsKnown known.now }
    ensures size { result ≡ type_size (tree_of (types_of known.now.types) (shape_described (types_of known.now.types) text.now)) }
    ensures bound { result ≤ 2 ^ 120 }
{
    let shape = described_shape(known, text);
    let size = elem_extent(known, shape.elem).size;
    if shape.count == 0 {
        return size;
    }
    large_product(element_count(&shape), size)
}

fn large_product(elements: u128, size: u128) -> u128
    requires elements { elements ≤ 2 ^ 96 }
    requires size { size ≤ 2 ^ 20 }
    ensures value { result ≡ elements * size }
    ensures bound { result ≤ 2 ^ 120 }
{
    elements * size
}

/// Whether a text names a type of at most 1,048,576 elements and bytes.
pub fn is_small_type(known: &KnownTypes, text: &[u8]) -> bool
    requires known { IsKnown known.now }
    ensures { result ≡ option_map_or (is_small (types_of known.now.types)) (shape_of_text (types_of known.now.types) text.now) false }
{
    let Some(shape) = named_shape(known, text) else {
        return false;
    };
    element_count(&shape) <= MAX_ELEMENTS && text_size(known, text) <= 1_048_576
}

fn product(elements: u128, size: u128) -> u128
    requires elements { elements ≤ 1048576 }
    requires size { size ≤ 1048576 }
    ensures value { result ≡ elements * size }
    ensures bound { result ≤ 2 ^ 40 }
{
    elements * size
}

#[tactic(auto, unfolding(spec_plant::specs::Sizes::type_size, spec_plant::specs::Sizes::type_align, spec_plant::specs::Sizes::type_depth))]
fn elem_extent(known: &KnownTypes, elem: Elem) -> Extent
    requires { IsKnown known.now }
    ensures extent { extent_view result ≡ extent_of (elem_tree (trees_of (types_of known.now.types)) (elem_of elem)) }
    ensures fair { IsFair result }
{
    match elem {
        Elem::Plain(kind) => {
            let size = u128::from(kind.size());
            Extent {
                size,
                align: size,
                depth: 0,
            }
        }
        Elem::Text(n) => Extent {
            size: n as u128 + 1,
            align: 1,
            depth: 0,
        },
        Elem::Struct(place) => extent_at(known, place as usize),
        Elem::Enum(place) => extent_at(known, place as usize),
    }
}

fn extent_at(known: &KnownTypes, place: usize) -> Extent
    requires { IsKnown known.now }
    ensures extent { extent_view result ≡ extent_of (tree_at (trees_of (types_of known.now.types)) place) }
    ensures fair { IsFair result }
{
    match extent_in(known.extents.as_slice(), place) {
        Some(extent) => extent,
        None => Extent {
            size: 0,
            align: 1,
            depth: 1,
        },
    }
}

fn extent_in(extents: &[Extent], place: usize) -> Option<Extent>
    ensures { result ≡ slice_get extents.now place }
{
    extents.get(place).copied()
}

//! The sizes and alignments of all named types, found once.

ghost use Rattle.std.specs.Prelude.{◌≡◌, ◌<◌, length, option_map, IfOk, IfSome};
ghost use Rattle.name_paths.specs.Steps.{step_of};
ghost use Rattle.spec_plant.specs.AcceptedTypes.{AreTypes, IsSized};
ghost use Rattle.spec_plant.specs.Parts.{part_of};
ghost use Rattle.spec_plant.specs.Sizes.{type_size};
ghost use Rattle.spec_plant.specs.Trees.{tree_at, tree_of, trees_of};
ghost use Rattle.type_layout.specs.Extents.{AreExtents, HasExtent, extents_of};
ghost use Rattle.type_layout.specs.FoundParts.{part_in, IsSizedPart};
ghost use Rattle.type_layout.specs.NamedTypes.{types_of};
ghost use Rattle.type_layout.specs.Shapes.{shape_of_ref};

use crate::extent::{enum_extent, struct_extent, type_extent};
use crate::parts::member_among;
use crate::{Extent, NamedType, TypeRef, Types};
use ads_base::NoMemory;
use name_paths::Step;
use std::alloc::Global;
use std::marker::Model;

/// The size and the alignment of each named type of a list. Sizes and parts that are asked for go over the members of
/// one structure, and not over those of the structures in it.
#[derive(Debug, Drop)]
pub struct Extents {
    each: Vec<Extent>,
}

impl Model for Extents {
    ghost use Rattle.std.specs.Prelude.{List};
    ghost use Rattle.type_layout.specs.declared.extent.Extent.{Extent};

    ghost Value = { List Extent };

    ghost view = { λ e. e.each.items };
}

impl Extents {
    /// Those of the types of a list.
    pub fn build(alloc: Global, types: &Types) -> Result<Extents, NoMemory>
        requires { AreTypes (types_of types.now) }
        ensures { IfOk result (λ extents. extents ≡ extents_of (types_of types.now)) }
    {
        let each = extents_of_types(alloc, types.as_slice())?;
        Ok(Extents { each })
    }

    /// The number of bytes of a type. `types` is the list that they were built with.
    pub fn size(&self, types: &Types, t: TypeRef<'_>) -> u32
        requires types { AreTypes (types_of types.now) }
        requires built { self.now ≡ extents_of (types_of types.now) }
        requires sized { IsSized (types_of types.now) (shape_of_ref t) }
        ensures { result ≡ type_size (tree_of (types_of types.now) (shape_of_ref t.entry)) }
    {
        type_extent(types.as_slice(), self.each.as_slice(), t).size
    }

    /// The part that a step leads to, as `member` finds it. `types` is the list that they were built with.
    pub fn member<'a>(
        &self,
        types: &'a Types,
        t: TypeRef<'a>,
        step: &Step<'_>,
    ) -> Option<(u32, TypeRef<'a>)>
        requires types { AreTypes (types_of types.now) }
        requires built { self.now ≡ extents_of (types_of types.now) }
        requires sized { IsSized (types_of types.now) (shape_of_ref t) }
        ensures part { option_map (part_in (types_of types.now)) result
            ≡ part_of (tree_of (types_of types.now) (shape_of_ref t.entry)) (step_of step.now) }
        ensures sized { IfSome result (IsSizedPart (types_of types.now)) }
    {
        member_among(types.as_slice(), self.each.as_slice(), t, step)
    }
}

fn extents_of_types(alloc: Global, types: &[NamedType]) -> Result<Vec<Extent>, NoMemory>
    requires { AreTypes (types_of types.now) }
    ensures { IfOk result (λ each. each.items ≡ extents_of (types_of types.now)) }
{
    let mut each = Vec::new(alloc);
    for place in 0..types.len() {
        let extent = extent_at(types, each.as_slice(), place as u16);
        each.push(extent)?;
    }
    Ok(each)
}

// The size and the alignment of the type at a place, where those of the types before it are known.
fn extent_at(types: &[NamedType], known: &[Extent], place: u16) -> Extent
    requires types { AreTypes (types_of types.now) }
    requires known { AreExtents (types_of types.now) known.now }
    requires there { place < length types.now }
    ensures { HasExtent (tree_at (trees_of (types_of types.now)) place) result }
{
    match &types[place as usize] {
        NamedType::Struct(_) => struct_extent(types, known, place),
        NamedType::Enum(_) => enum_extent(types, place),
    }
}

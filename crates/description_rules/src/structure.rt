//! How a structure lies in memory.
ghost use Rattle.std.specs.Prelude.{◌≡◌, ◌≤◌, ◌<◌, ◌+◌, ◌^◌, min, max, map, true};
ghost use Rattle.spec_plant.specs.Trees.{trees_of, member_trees};
ghost use Rattle.spec_plant.specs.Sizes.{aligned};
ghost use Rattle.spec_rules.specs.Described.{member_described};
ghost use Rattle.type_layout.specs.NamedTypes.{types_of};
ghost use Rattle.description_rules.specs.Built.{are_small_members};
ghost use Rattle.description_rules.specs.KnownTypes.{IsKnown};
ghost use Rattle.description_rules.specs.Known.{IsFairArray, IsSoFar, IsStructExtent};
ghost use Rattle.description_table.specs.Views.{member_view};

use crate::extents::{Extent, aligned};
use crate::known_types::{KnownTypes, text_extent};
use description_table::WrittenMember;

/// How the structure with these members lies in memory.
pub fn struct_extent(known: &KnownTypes, members: &[WrittenMember<'_>]) -> Extent
    requires known { IsKnown known.now }
    requires small { are_small_members (map (member_described (types_of known.now.types)) (map member_view members.now)) ≡ true }
    ensures extent { IsStructExtent (member_trees (trees_of (types_of known.now.types))
        (map (member_described (types_of known.now.types)) (map member_view members.now))) result }
    ensures fair { (0 < result.align) × (result.align ≤ 8) }
{
    let mut so_far = Extent {
        size: 0,
        align: 1,
        depth: 0,
    };
    for member in members {
        so_far = behind(so_far, text_extent(known, member.kind));
    }
    Extent {
        size: aligned(so_far.size, so_far.align),
        align: so_far.align,
        depth: so_far.depth + 1,
    }
}

// The members so far and one more, where the size is the end of the last one.
fn behind(so_far: Extent, e: Extent) -> Extent
    requires so_far { IsSoFar so_far }
    requires fair { IsFairArray e }
    ensures size { result.size ≡ aligned so_far.size (min e.align 8) + e.size }
    ensures align { result.align ≡ max so_far.align e.align }
    ensures depth { result.depth ≡ max so_far.depth e.depth }
    ensures bound { result.size ≤ so_far.size + 2 ^ 41 }
{
    Extent {
        size: aligned(so_far.size, e.align.min(8)) + e.size,
        align: so_far.align.max(e.align),
        depth: so_far.depth.max(e.depth),
    }
}

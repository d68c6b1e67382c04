//! Description rule 8: the size of types.
ghost use Rattle.std.specs.Prelude.{◌≡◌, ◌≤◌, ◌<◌, length, map, true, IfOk, List};
ghost use Rattle.spec_plant.specs.Trees.{TypeTree, trees_of, named_tree};
ghost use Rattle.spec_rules.specs.Described.{type_described};
ghost use Rattle.description_rules.specs.TypesLeft.{enumeration_described};
ghost use Rattle.spec_rules.specs.SizeRules.{members_of};
ghost use Rattle.type_layout.specs.NamedTypes.{types_of};
ghost use Rattle.description_rules.specs.Built.{are_small_members};
ghost use Rattle.description_rules.specs.Extents.{extent_view, extent_of};
ghost use Rattle.description_rules.specs.KnownTypes.{IsKnown, IsKnownOrWrong, AddsType};
ghost use Rattle.description_table.specs.Views.{type_view, value_view};

use crate::extents::Extent;
use crate::known_types::KnownTypes;
use crate::shapes::name_of;
use crate::structure::struct_extent;
use crate::type_building::build_type;
use crate::words::read_base;
use ads_base::{ListOf, NoMemory};
use description_table::{WrittenEnumeration, WrittenType};
use name_index::NameIndex;
use std::alloc::Global;
use type_layout::Kind;

/// The types of a document, and how they lie in memory; or the place of the first type that breaks
/// rule 8.
pub fn read_types(
    alloc: Global,
    types: &[WrittenType<'_>],
) -> Result<Result<KnownTypes, usize>, NoMemory>
    requires { length types.now ≤ 1000 }
    ensures { IfOk result (IsKnownOrWrong (map type_view types.now)) }
{
    let mut known = KnownTypes {
        types: ListOf::new(alloc),
        extents: Vec::new(alloc),
        names: NameIndex::new(alloc),
    };
    for (i, kind) in types.iter().enumerate() {
        if !add_type(alloc, &mut known, kind)? {
            return Ok(Err(i));
        }
    }
    Ok(Ok(known))
}

fn add_type(alloc: Global, known: &mut KnownTypes, kind: &WrittenType<'_>) -> Result<bool, NoMemory>
    requires known { IsKnown known.old }
    requires few { length known.old.types < 1000 }
    ensures { IfOk result (AddsType (type_described (types_of known.old.types) (type_view kind.now)) known.old known.new) }
{
    let Some(named) = build_type(alloc, known, kind)? else {
        return Ok(false);
    };
    let extent = type_extent(known, kind);
    if extent.size > 1_048_576 || extent.depth > 16 {
        return Ok(false);
    }
    known.names.add(alloc, name_of(&named))?;
    known.types.push(alloc, named)?;
    known.extents.push(extent)?;
    Ok(true)
}

// How the type that a document writes lies in memory.
#[tactic(auto, unfolding(spec_plant::specs::Sizes::type_size, spec_plant::specs::Sizes::type_align, spec_plant::specs::Sizes::type_depth))]
fn type_extent(known: &KnownTypes, kind: &WrittenType<'_>) -> Extent
    requires known { IsKnown known.now }
    requires small { are_small_members (members_of (type_described (types_of known.now.types) (type_view kind.now))) ≡ true }
    ensures extent { extent_view result
        ≡ extent_of (named_tree (trees_of (types_of known.now.types)) (type_described (types_of known.now.types) (type_view kind.now))) }
    ensures fair { (0 < result.align) × (result.align ≤ 8) }
{
    match kind {
        WrittenType::Structure(s) => struct_extent(known, s.members.as_slice()),
        WrittenType::Enumeration(e) => enumeration_extent(e),
    }
}

#[tactic(auto, unfolding(spec_plant::specs::Sizes::type_size, spec_plant::specs::Sizes::type_align, spec_plant::specs::Sizes::type_depth))]
fn enumeration_extent(e: &WrittenEnumeration<'_>) -> Extent
    ensures extent { (known : List TypeTree) → extent_view result
        ≡ extent_of (named_tree known (enumeration_described e.now.name.now e.now.base.now (map value_view e.now.values.items))) }
    ensures fair { (0 < result.align) × (result.align ≤ 8) }
{
    let base = match read_base(e.base) {
        Some(base) => base,
        None => Kind::Sint,
    };
    let size = u128::from(base.size());
    Extent {
        size,
        align: size,
        depth: 0,
    }
}

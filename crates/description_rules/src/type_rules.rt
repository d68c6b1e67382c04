//! Description rules 6 and 7: the names of types, and their members and values.
ghost use Rattle.std.specs.Prelude.{◌≡◌, ◌≤◌, ◌∷◌, [], length, map, IfOk, OnOk, IsNone};
ghost use Rattle.std.specs.List.{list_all};
ghost use Rattle.name_paths.specs.Identifier.{lower};
ghost use Rattle.spec_plant.specs.AcceptedTypes.{is_type_name};
ghost use Rattle.spec_rules.specs.Places.{first_wrong, first_through};
ghost use Rattle.spec_rules.specs.TypeRules.{wrong_type_name, is_right_type_name, wrong_part, has_right_parts, wrong_member_of};
ghost use Rattle.spec_rules.specs.Written.{written_name, written_members};
ghost use Rattle.description_rules.specs.Next.{IsNext};
ghost use Rattle.description_rules.specs.NameStarts.{IsAdded};
ghost use Rattle.description_table.specs.Views.{type_view};

use crate::member_rules::wrong_member_of;
use crate::names::{is_count, is_type_name};
use crate::places::lesser;
use crate::seen::{SeenTexts, note, note_lower};
use crate::value_rules::are_right_values;
use ads_base::NoMemory;
use description_table::WrittenType;
use name_index::lower_copy;
use std::alloc::Global;

/// Rule 6: the names of types; there are at most 1,000 (item 1,000).
#[tactic(auto, unfolding(spec_rules::specs::TypeRules::wrong_type_name))]
pub fn wrong_type_name(alloc: Global, types: &[WrittenType<'_>]) -> Result<Option<usize>, NoMemory>
    ensures place { IfOk result (λ place. place ≡ wrong_type_name (map type_view types.now)) }
    ensures few { IfOk result (λ place. IsNone place → length types.now ≤ 1000) }
{
    let many = if types.len() > 1000 { Some(1000) } else { None };
    let first = first_wrong_name(alloc, types)?;
    Ok(lesser(first, many))
}

fn first_wrong_name(alloc: Global, types: &[WrittenType<'_>]) -> Result<Option<usize>, NoMemory>
    ensures { IfOk result (λ place. place ≡ first_wrong is_right_type_name [] (map type_view types.now)) }
{
    let mut seen = SeenTexts::new(alloc);
    first_wrong_among(alloc, &mut seen, types)
}

fn first_wrong_among(
    alloc: Global,
    seen: &mut SeenTexts,
    types: &[WrittenType<'_>],
) -> Result<Option<usize>, NoMemory>
    requires { seen.old ≡ [] }
    ensures { IfOk result (λ place. place ≡ first_wrong is_right_type_name [] (map type_view types.now)) }
{
    for (i, kind) in types.iter().enumerate() {
        if !is_right_type_name(alloc, seen, kind)? {
            return Ok(Some(i));
        }
    }
    Ok(None)
}

fn is_right_type_name(
    alloc: Global,
    seen: &mut SeenTexts,
    kind: &WrittenType<'_>,
) -> Result<bool, NoMemory>
    ensures { IfOk result (IsNext (is_type_name (written_name (type_view kind.now))) seen.old seen.new (lower (written_name (type_view kind.now)))) }
{
    let name = kind.name();
    let right = is_type_name(name);
    note_lower(alloc, seen, right, name)
}

/// Rule 7: the number of members, and all of enumerations (item 0); then each member through all
/// structures.
#[tactic(auto, unfolding(spec_rules::specs::TypeRules::wrong_part))]
pub fn wrong_part(alloc: Global, types: &[WrittenType<'_>]) -> Result<Option<u128>, NoMemory>
    ensures { IfOk result (λ place. place ≡ wrong_part (map type_view types.now)) }
{
    if !have_right_parts(alloc, types)? {
        return Ok(Some(0));
    }
    first_wrong_part(alloc, types)
}

fn have_right_parts(alloc: Global, types: &[WrittenType<'_>]) -> Result<bool, NoMemory>
    ensures { IfOk result (λ right. right ≡ list_all has_right_parts (map type_view types.now)) }
{
    for kind in types {
        if !has_right_parts(alloc, kind)? {
            return Ok(false);
        }
    }
    Ok(true)
}

// Whether a type has 1 to 1,000 members, or a base and 1 to 1,000 right values.
fn has_right_parts(alloc: Global, kind: &WrittenType<'_>) -> Result<bool, NoMemory>
    ensures { IfOk result (λ right. right ≡ has_right_parts (type_view kind.now)) }
{
    match kind {
        WrittenType::Structure(s) => Ok(is_count(s.members.len())),
        WrittenType::Enumeration(e) => are_right_values(alloc, e.base, e.values.as_slice()),
    }
}

fn first_wrong_part(alloc: Global, types: &[WrittenType<'_>]) -> Result<Option<u128>, NoMemory>
    ensures { IfOk result (λ place. place ≡ first_through (λ t. length (written_members t)) wrong_member_of [] (map type_view types.now)) }
{
    let mut names = SeenTexts::new(alloc);
    first_wrong_behind(alloc, &mut names, types)
}

fn first_wrong_behind(
    alloc: Global,
    names: &mut SeenTexts,
    types: &[WrittenType<'_>],
) -> Result<Option<u128>, NoMemory>
    requires { names.old ≡ [] }
    ensures { IfOk result (λ place. place ≡ first_through (λ t. length (written_members t)) wrong_member_of [] (map type_view types.now)) }
{
    let mut count: u128 = 0;
    for kind in types {
        if let Some(place) = wrong_member_of(alloc, names, kind)? {
            return Ok(Some(count + place as u128));
        }
        count += kind.member_count() as u128;
        note_type(alloc, names, kind)?;
    }
    Ok(None)
}

fn note_type(alloc: Global, names: &mut SeenTexts, kind: &WrittenType<'_>) -> Result<(), NoMemory>
    ensures { OnOk result (IsAdded (lower (written_name (type_view kind.now)) ∷ []) names.old names.new) }
{
    let name = lower_copy(alloc, kind.name())?;
    note(alloc, names, name.as_slice())
}

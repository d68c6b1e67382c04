//! Description rule 7: members of structures.
ghost use Rattle.std.specs.Prelude.{◌≡◌, ◌&&◌, [], map, IfOk};
ghost use Rattle.name_paths.specs.Identifier.{lower};
ghost use Rattle.spec_plant.specs.AcceptedTypes.{is_short_identifier, is_comment};
ghost use Rattle.spec_rules.specs.Places.{first_wrong};
ghost use Rattle.type_layout.specs.ReadTexts.{elem_text_of};
ghost use Rattle.description_rules.specs.Next.{IsNext};
ghost use Rattle.description_rules.specs.NextMember.{is_type_in, names_only_in, is_right_named, is_member_alone, wrong_member_in};
ghost use Rattle.description_table.specs.Views.{type_view, member_view};

use crate::names::{is_comment, is_short_identifier};
use crate::seen::{SeenTexts, note_lower};
use ads_base::NoMemory;
use description_table::{WrittenMember, WrittenType};
use name_index::lower_copy;
use std::alloc::Global;
use type_layout::{ElemText, read_type_text};

/// The first member of a type that is not right, where these are the names of the types before it, in lower case.
pub fn wrong_member_of(
    alloc: Global,
    names: &SeenTexts,
    kind: &WrittenType<'_>,
) -> Result<Option<usize>, NoMemory>
    ensures { IfOk result (λ place. place ≡ wrong_member_in names.now (type_view kind.now)) }
{
    match kind {
        WrittenType::Structure(s) => first_wrong_member(alloc, names, s.members.as_slice()),
        WrittenType::Enumeration(_) => Ok(None),
    }
}

fn first_wrong_member(
    alloc: Global,
    names: &SeenTexts,
    members: &[WrittenMember<'_>],
) -> Result<Option<usize>, NoMemory>
    ensures { IfOk result (λ place. place ≡ first_wrong (is_right_named names.now) [] (map member_view members.now)) }
{
    let mut seen = SeenTexts::new(alloc);
    first_wrong_among(alloc, names, &mut seen, members)
}

fn first_wrong_among(
    alloc: Global,
    names: &SeenTexts,
    seen: &mut SeenTexts,
    members: &[WrittenMember<'_>],
) -> Result<Option<usize>, NoMemory>
    requires { seen.old ≡ [] }
    ensures { IfOk result (λ place. place ≡ first_wrong (is_right_named names.now) [] (map member_view members.now)) }
{
    for (i, member) in members.iter().enumerate() {
        if !is_right_member(alloc, names, seen, member)? {
            return Ok(Some(i));
        }
    }
    Ok(None)
}

fn is_right_member(
    alloc: Global,
    names: &SeenTexts,
    seen: &mut SeenTexts,
    member: &WrittenMember<'_>,
) -> Result<bool, NoMemory>
    ensures { IfOk result (IsNext (is_member_alone names.now (member_view member.now)) seen.old seen.new (lower member.now.name.now)) }
{
    let right = is_member(alloc, names, member)?;
    note_lower(alloc, seen, right, member.name)
}

// Whether a member is right but for the names of those before.
fn is_member(alloc: Global, names: &SeenTexts, member: &WrittenMember<'_>) -> Result<bool, NoMemory>
    ensures { IfOk result (λ right. right ≡ is_member_alone names.now (member_view member.now)) }
{
    if !has_right_texts(member) {
        return Ok(false);
    }
    is_type_in(alloc, names, member.kind)
}

fn has_right_texts(member: &WrittenMember<'_>) -> bool
    ensures { result ≡ (is_short_identifier member.now.name.now && is_comment member.now.comment.now) }
{
    is_short_identifier(member.name) && is_comment(member.comment)
}

// Whether a text names a type, and only ones of these names.
fn is_type_in(alloc: Global, names: &SeenTexts, text: &[u8]) -> Result<bool, NoMemory>
    ensures { IfOk result (λ right. right ≡ is_type_in names.now text.now) }
{
    match read_type_text(text) {
        None => Ok(false),
        Some(t) => names_only_in(alloc, names, t.elem),
    }
}

fn names_only_in(alloc: Global, names: &SeenTexts, elem: ElemText<'_>) -> Result<bool, NoMemory>
    ensures { IfOk result (λ right. right ≡ names_only_in names.now (elem_text_of elem.entry)) }
{
    match elem {
        ElemText::Plain(_) => Ok(true),
        ElemText::Text(_) => Ok(true),
        ElemText::Named(name) => {
            let name = lower_copy(alloc, name)?;
            Ok(!names.is_new(name.as_slice()))
        }
    }
}

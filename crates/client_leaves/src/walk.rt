//! A walk over a type: its leaves one after another, where they can be taken.

ghost use Rattle.std.specs.Prelude.{◌≡◌, ◌^◌, ◌+◌, ◌*◌, ◌<◌, ◌≤◌, ◌++◌, ◌∷◌, [], flat_map, length, map, IfOk, OnOk};
ghost use Rattle.std.specs.List.{list_all};
ghost use Rattle.spec_plant.specs.TypeTexts.{type_text_of};
ghost use Rattle.spec_client.specs.LeafTypes.{elem_size, text_size, is_sound_elem, is_member, are_members};
ghost use Rattle.spec_client.specs.Leaves.{leaf, leaves_of_elem, leaves_of_member, leaves_of_text, leaves_of_elements};
ghost use Rattle.type_layout.specs.ReadTexts.{elem_text_of, text_of};
ghost use Rattle.client_leaves.specs.Kept.{leaf_kept};
ghost use Rattle.client_leaves.specs.Table.{AreFound, IsFound, IsMemberFound, IsTable, member_kept, type_kept, types_kept};
ghost use Rattle.client_leaves.specs.Walks.{Walked, is_sound_type, leaves_of_type};

use crate::leaf::Leaf;
use crate::paths::{element_paths, member_path};
use crate::sizes::{elem_size, stands_in};
use crate::table::{FoundText, Member, ReadType, type_at};
use ads_base::{ListOf, NoMemory, Octets};
use std::alloc::Global;
use type_layout::ElemText;

/// The leaves of a type's text, whose element's structures may be nested so deep.
#[cycle(walk)]
pub(crate) fn text_leaves(
    alloc: Global,
    types: &[ReadType<'_>],
    depth: u8,
    text: &FoundText<'_>,
    path: &[u8],
    place: u32,
    leaves: &mut ListOf<Leaf>,
) -> Result<bool, NoMemory>
    requires table { IsTable types.now }
    requires found { IsFound (types_kept types.now) text.now }
    requires room { place + text_size (types_kept types.now) (text_of text.now.text) < 2 ^ 32 }
    ensures { IfOk result (λ sound. Walked sound (is_sound_elem depth (types_kept types.now) (elem_text_of text.now.text.elem))
        (leaves_of_text (leaves_of_elem depth (types_kept types.now) (elem_text_of text.now.text.elem))
        (elem_size (types_kept types.now) (elem_text_of text.now.text.elem)) path.now place (text_of text.now.text).ends)
        (map leaf_kept leaves.old) (map leaf_kept leaves.new)) }
{
    if text.text.count == 0 {
        let sound = elem_leaves(alloc, types, depth, text, path, place, leaves)?;
        return Ok(sound);
    }
    let paths = element_paths(alloc, path, &text.text)?;
    let sound = array_leaves(alloc, types, depth, text, paths.as_slice(), place, leaves)?;
    Ok(sound)
}

// The leaves of elements that stand one behind another.
#[cycle(walk)]
fn array_leaves(
    alloc: Global,
    types: &[ReadType<'_>],
    depth: u8,
    text: &FoundText<'_>,
    paths: &[Octets],
    place: u32,
    leaves: &mut ListOf<Leaf>,
) -> Result<bool, NoMemory>
    requires table { IsTable types.now }
    requires found { IsFound (types_kept types.now) text.now }
    requires room { place + length paths.now * elem_size (types_kept types.now) (elem_text_of text.now.text.elem) < 2 ^ 32 }
    ensures { IfOk result (λ sound. Walked sound
        (list_all (λ path. is_sound_elem depth (types_kept types.now) (elem_text_of text.now.text.elem)) paths.now)
        (leaves_of_elements (leaves_of_elem depth (types_kept types.now) (elem_text_of text.now.text.elem)) place
        (elem_size (types_kept types.now) (elem_text_of text.now.text.elem)) paths.now)
        (map leaf_kept leaves.old) (map leaf_kept leaves.new)) }
{
    let size = elem_size(types, text);
    let mut at = place;
    'elements: for path in paths {
        let sound = elem_leaves(alloc, types, depth, text, path.as_slice(), at, leaves)?;
        if !sound {
            return Ok(false);
        }
        at += size;
    }
    Ok(true)
}

// The leaves of an element.
#[cycle(walk)]
fn elem_leaves(
    alloc: Global,
    types: &[ReadType<'_>],
    depth: u8,
    text: &FoundText<'_>,
    path: &[u8],
    place: u32,
    leaves: &mut ListOf<Leaf>,
) -> Result<bool, NoMemory>
    requires table { IsTable types.now }
    requires found { IsFound (types_kept types.now) text.now }
    requires room { place + elem_size (types_kept types.now) (elem_text_of text.now.text.elem) < 2 ^ 32 }
    ensures { IfOk result (λ sound. Walked sound (is_sound_elem depth (types_kept types.now) (elem_text_of text.now.text.elem))
        (leaves_of_elem depth (types_kept types.now) (elem_text_of text.now.text.elem) path.now place)
        (map leaf_kept leaves.old) (map leaf_kept leaves.new)) }
{
    match text.text.elem {
        ElemText::Plain(kind) => {
            put_leaf(alloc, path, place, kind.type_id(), kind.size(), leaves)?;
            Ok(true)
        }
        ElemText::Text(n) => {
            put_leaf(alloc, path, place, 30, u32::from(n) + 1, leaves)?;
            Ok(true)
        }
        ElemText::Named(_) => match type_at(types, text.type_place) {
            None => Ok(false),
            Some(t) => {
                let sound = type_leaves(alloc, types, depth, t, path, place, leaves)?;
                Ok(sound)
            }
        },
    }
}

fn put_leaf(
    alloc: Global,
    path: &[u8],
    place: u32,
    type_id: u32,
    size: u32,
    leaves: &mut ListOf<Leaf>,
) -> Result<(), NoMemory>
    ensures { OnOk result (map leaf_kept leaves.new
        ≡ map leaf_kept leaves.old ++ leaf path.now place type_id size ∷ []) }
{
    let path = Octets::copy_of(alloc, path)?;
    leaves.push(
        alloc,
        Leaf {
            path,
            place,
            type_id,
            size,
        },
    )?;
    Ok(())
}

// The leaves of a named type: an enumeration has no sub entries, and is one itself.
#[cycle(walk)]
fn type_leaves(
    alloc: Global,
    types: &[ReadType<'_>],
    depth: u8,
    t: &ReadType<'_>,
    path: &[u8],
    place: u32,
    leaves: &mut ListOf<Leaf>,
) -> Result<bool, NoMemory>
    requires table { IsTable types.now }
    requires found { AreFound (types_kept types.now) t.now.members.items }
    requires room { place + t.now.entry.size < 2 ^ 32 }
    ensures { IfOk result (λ sound. Walked sound (is_sound_type depth (types_kept types.now) (type_kept t.now))
        (leaves_of_type depth (types_kept types.now) path.now place (type_kept t.now))
        (map leaf_kept leaves.old) (map leaf_kept leaves.new)) }
{
    let members = t.members.as_slice();
    if t.entry.size == 0 {
        return Ok(false);
    }
    if members.is_empty() {
        put_leaf(alloc, path, place, t.entry.type_id, t.entry.size, leaves)?;
        return Ok(true);
    }
    if depth == 0 {
        return Ok(false);
    }
    let sound = structure_leaves(
        alloc,
        types,
        depth - 1,
        t.entry.size,
        members,
        path,
        place,
        leaves,
    )?;
    Ok(sound)
}

// The leaves of a structure of this size.
#[cycle(walk)]
fn structure_leaves(
    alloc: Global,
    types: &[ReadType<'_>],
    depth: u8,
    size: u32,
    members: &[Member<'_>],
    path: &[u8],
    place: u32,
    leaves: &mut ListOf<Leaf>,
) -> Result<bool, NoMemory>
    requires table { IsTable types.now }
    requires found { AreFound (types_kept types.now) members.now }
    requires room { place + size < 2 ^ 32 }
    ensures { IfOk result (λ sound. Walked sound
        (are_members (is_sound_elem depth (types_kept types.now)) (types_kept types.now) 0 size (map member_kept members.now))
        (flat_map (leaves_of_member (leaves_of_elem depth (types_kept types.now)) (types_kept types.now) path.now place)
        (map member_kept members.now))
        (map leaf_kept leaves.old) (map leaf_kept leaves.new)) }
{
    let mut end = 0;
    'members: for member in members {
        let sound = member_leaves(alloc, types, depth, size, end, member, path, place, leaves)?;
        if !sound {
            return Ok(false);
        }
        end = u64::from(member.entry.offset) + u64::from(member.entry.size);
    }
    Ok(true)
}

// The leaves of a member of a structure of this size, when those before it end here.
#[cycle(walk)]
fn member_leaves(
    alloc: Global,
    types: &[ReadType<'_>],
    depth: u8,
    size: u32,
    end: u64,
    member: &Member<'_>,
    path: &[u8],
    place: u32,
    leaves: &mut ListOf<Leaf>,
) -> Result<bool, NoMemory>
    requires table { IsTable types.now }
    requires found { IsMemberFound (types_kept types.now) member.now }
    requires room { place + size < 2 ^ 32 }
    ensures { IfOk result (λ sound. Walked sound
        (is_member (is_sound_elem depth (types_kept types.now)) (types_kept types.now) end size (member_kept member.now)
        (type_text_of member.now.entry.kind.now))
        (leaves_of_member (leaves_of_elem depth (types_kept types.now)) (types_kept types.now) path.now place
        (member_kept member.now))
        (map leaf_kept leaves.old) (map leaf_kept leaves.new)) }
{
    match member.text {
        None => Ok(false),
        Some(text) => {
            if !stands_in(types, end, size, member, &text) {
                return Ok(false);
            }
            let path = member_path(alloc, path, member.entry.name)?;
            let at = place + member.entry.offset;
            let sound = text_leaves(alloc, types, depth, &text, path.as_slice(), at, leaves)?;
            Ok(sound)
        }
    }
}

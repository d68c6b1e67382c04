//! Sizes and type ids.

ghost use Rattle.std.specs.Prelude.{◌≡◌, ◌≤◌, ◌^◌, ◌*◌};
ghost use Rattle.spec_client.specs.LeafTypes.{elem_size, text_size, stands_in};
ghost use Rattle.type_layout.specs.ReadTexts.{elem_text_of, text_of};
ghost use Rattle.client_leaves.specs.Table.{IsFound, IsTable, member_kept, types_kept};

use crate::dimensions::element_count;
use crate::table::{FoundText, Member, ReadType, type_at};
use type_layout::ElemText;

/// The size of a text's element, 0 where its type is not there.
pub(crate) fn elem_size(types: &[ReadType<'_>], text: &FoundText<'_>) -> u32
    requires table { IsTable types.now }
    requires found { IsFound (types_kept types.now) text.now }
    ensures { result ≡ elem_size (types_kept types.now) (elem_text_of text.now.text.elem) }
{
    match text.text.elem {
        ElemText::Plain(kind) => kind.size(),
        ElemText::Text(n) => u32::from(n) + 1,
        ElemText::Named(_) => match type_at(types, text.type_place) {
            None => 0,
            Some(t) => t.entry.size,
        },
    }
}

/// The size of a type text: that of an element, as often as there are elements.
pub(crate) fn text_size(types: &[ReadType<'_>], text: &FoundText<'_>) -> u128
    requires table { IsTable types.now }
    requires found { IsFound (types_kept types.now) text.now }
    ensures { result ≡ text_size (types_kept types.now) (text_of text.now.text) }
{
    let size = elem_size(types, text);
    element_count(&text.text) * u128::from(size)
}

/// Whether a member has the size of its text, begins where the one before ended or later, and ends in its structure.
pub(crate) fn stands_in(
    types: &[ReadType<'_>],
    end: u64,
    size: u32,
    member: &Member<'_>,
    text: &FoundText<'_>,
) -> bool
    requires table { IsTable types.now }
    requires found { IsFound (types_kept types.now) text.now }
    ensures { result ≡ stands_in (types_kept types.now) end size (member_kept member.now) (text_of text.now.text) }
{
    let entry = &member.entry;
    if u128::from(entry.size) != text_size(types, text) {
        return false;
    }
    if u64::from(entry.offset) < end {
        return false;
    }
    u64::from(entry.offset) + u64::from(entry.size) <= u64::from(size)
}

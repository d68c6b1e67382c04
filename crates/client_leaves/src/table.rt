//! The types of an upload with their members, whose type texts are read and whose types are found.

ghost use Rattle.std.specs.Prelude.{◌≡◌, slice_get, option_map, option_and_then, IfSome};
ghost use Rattle.client_leaves.specs.Table.{AreFound, IsTable, type_kept, types_kept};

use type_layout::TypeText;
use type_upload::TypeEntry;

/// A type text that was read, and where the type that its element names stands among those of the upload.
#[derive(Clone, Copy)]
pub(crate) struct FoundText<'a> {
    pub text: TypeText<'a>,
    // None where the element names no type, or one that is not there.
    pub type_place: Option<u32>,
}

/// A sub entry, and its type where its text writes one.
#[derive(Clone, Copy)]
pub(crate) struct Member<'a> {
    pub entry: TypeEntry<'a>,
    pub text: Option<FoundText<'a>>,
}

/// A type of an upload, with its members.
#[derive(Drop)]
pub(crate) struct ReadType<'a> {
    pub entry: TypeEntry<'a>,
    pub members: Vec<Member<'a>>,
}

/// The type that stands at a place.
pub(crate) fn type_at<'a, 'b>(
    types: &'b [ReadType<'a>],
    place: Option<u32>,
) -> Option<&'b ReadType<'a>>
    requires { IsTable types.now }
    ensures value { option_map (λ t. type_kept t.now) result
        ≡ option_and_then (λ k. slice_get (types_kept types.now) k) place }
    ensures found { IfSome result (λ t. AreFound (types_kept types.now) t.now.members.items) }
{
    match place {
        None => None,
        Some(k) => types.get(k as usize),
    }
}

//! Members of structures by their names, and their comments.

ghost use Rattle.std.specs.Prelude.{◌≡◌, IsTrue, bytes_eq, option_copied, option_map};
ghost use Rattle.name_paths.specs.Identifier.{lower};
ghost use Rattle.name_paths.specs.Steps.{step_of};
ghost use Rattle.spec_plant.specs.AcceptedTypes.{AreTypes, IsSized, is_elem, is_structure_at};
ghost use Rattle.spec_plant.specs.PartTexts.{comment_of_member, comment_of_step};
ghost use Rattle.spec_plant.specs.Parts.{member_of};
ghost use Rattle.spec_plant.specs.Trees.{tree_of, tree_at, trees_of, elem_tree};
ghost use Rattle.type_layout.specs.Shapes.{elem_of, shape_of_ref};
ghost use Rattle.type_layout.specs.NamedTypes.{types_of};
ghost use Rattle.symbol_table.specs.MemberTexts.{text_of_part, text_of_declared};

use name_paths::Step;
use type_layout::{Elem, Member, NamedType, TypeRef, Types};

/// The comment of what a step leads to: a member has its own, an element none.
pub fn comment_at<'a>(types: &'a Types, kind: TypeRef<'a>, step: &Step<'_>) -> &'a [u8]
    requires types { AreTypes (types_of types.now) }
    requires sized { IsSized (types_of types.now) (shape_of_ref kind) }
    ensures { result.now
        ≡ comment_of_step (tree_of (types_of types.now) (shape_of_ref kind.entry)) (step_of step.now) }
{
    match step {
        Step::Name(name) => member_comment(types, kind, name),
        Step::Index(_) => &[],
    }
}

fn member_comment<'a>(types: &'a Types, kind: TypeRef<'a>, name: &[u8]) -> &'a [u8]
    requires types { AreTypes (types_of types.now) }
    requires sized { IsSized (types_of types.now) (shape_of_ref kind) }
    ensures { result.now
        ≡ comment_of_member (member_of (tree_of (types_of types.now) (shape_of_ref kind.entry)) name.now) }
{
    match member_named(types, kind, name) {
        None => &[],
        Some(member) => member.comment.as_slice(),
    }
}

/// The member with this name, ASCII case aside, where the type is a structure that has one.
pub fn member_named<'a>(types: &'a Types, kind: TypeRef<'a>, name: &[u8]) -> Option<&'a Member>
    requires types { AreTypes (types_of types.now) }
    requires sized { IsSized (types_of types.now) (shape_of_ref kind) }
    ensures { option_map text_of_declared (option_copied result)
        ≡ option_map text_of_part (member_of (tree_of (types_of types.now) (shape_of_ref kind.entry)) name.now) }
{
    match kind {
        TypeRef::One(elem) => elem_member(types.as_slice(), elem, name),
        TypeRef::Array(_, _) => None,
    }
}

// The member with this name, where the element is a structure.
fn elem_member<'a>(types: &'a [NamedType], elem: Elem, name: &[u8]) -> Option<&'a Member>
    requires types { AreTypes (types_of types.now) }
    requires named { IsTrue (is_elem (types_of types.now) (elem_of elem)) }
    ensures { option_map text_of_declared (option_copied result)
        ≡ option_map text_of_part (member_of (elem_tree (trees_of (types_of types.now)) (elem_of elem)) name.now) }
{
    match elem {
        Elem::Struct(place) => structure_member(types, place, name),
        Elem::Plain(_) => None,
        Elem::Text(_) => None,
        Elem::Enum(_) => None,
    }
}

// The member of a structure with this name.
fn structure_member<'a>(types: &'a [NamedType], place: u16, name: &[u8]) -> Option<&'a Member>
    requires types { AreTypes (types_of types.now) }
    requires there { IsTrue (is_structure_at (types_of types.now) place) }
    ensures { option_map text_of_declared (option_copied result)
        ≡ option_map text_of_part (member_of (tree_at (trees_of (types_of types.now)) place) name.now) }
{
    let NamedType::Struct(structure) = &types[place as usize] else {
        unreachable!();
    };
    for member in structure.members.as_slice() {
        if is_same_name(member.name.as_slice(), name) {
            return Some(member);
        }
    }
    None
}

// Whether two names are the same, ASCII case aside.
fn is_same_name(a: &[u8], b: &[u8]) -> bool
    ensures { result ≡ bytes_eq (lower a.now) (lower b.now) }
{
    a.eq_ignore_ascii_case(b)
}

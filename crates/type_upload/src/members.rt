//! The sub entries of a structure are written.

ghost use Rattle.std.specs.Prelude.{◌≡◌, ◌+◌, ◌≤◌, ◌++◌, length, map, slice_get, Some, OnOk, OnErr, IfOk};
ghost use Rattle.ads_base.specs.Octets.{Extends};
ghost use Rattle.spec_plant.specs.Trees.{named_tree, tree_of, trees_of};
ghost use Rattle.spec_plant.specs.AcceptedTypes.{AreTypes};
ghost use Rattle.type_layout.specs.Shapes.{shape_of};
ghost use Rattle.type_layout.specs.NamedTypes.{types_of, member_of, structure_of};
ghost use Rattle.type_upload.specs.Layouts.{AreKnown, HasLayout};
ghost use Rattle.type_upload.specs.NextMembers.{IsNextMember, Follows, sub_of, subs_of};

use crate::fields::{Fields, append_fields};
use crate::layouts::{Laid, Layout, dims_of, next_multiple, shape_layout};
use ads_base::{NoMemory, Octets};
use std::alloc::Global;
use type_layout::{Member, StructType, Types, type_text};

// The sub entries of the structure that stands behind the known types, and its layout. After an error a part may stand
// there.
pub(crate) fn append_members(
    alloc: Global,
    types: &Types,
    known: &[Layout],
    s: &StructType,
    out: &mut Octets,
) -> Result<Layout, NoMemory>
    requires types { AreTypes (types_of types.now) }
    requires known { AreKnown (types_of types.now) known.now }
    requires there { slice_get (types_of types.now) (length known.now) ≡ Some (structure_of s.now) }
    ensures ok { OnOk result (out.new
        ≡ out.old ++ subs_of (types_of types.now) 0 (map member_of s.now.members)) }
    ensures short { OnOk result (length out.new ≤ length out.old + 1000000) }
    ensures layout { IfOk result
        (HasLayout (named_tree (trees_of (types_of types.now)) (structure_of s.now))) }
    ensures no_memory { OnErr result (Extends out.old out.new) }
{
    let mut laid = Laid { end: 0, align: 1 };
    let members = s.members.as_slice();
    for member in members {
        let next = append_member(alloc, types, known, member, laid, out)?;
        laid = next;
    }
    Ok(Layout {
        size: next_multiple(laid.end, laid.align),
        align: laid.align,
        type_id: 65,
    })
}

// The sub entry of one member, and where the members end behind it.
fn append_member(
    alloc: Global,
    types: &Types,
    known: &[Layout],
    member: &Member,
    before: Laid,
    out: &mut Octets,
) -> Result<Laid, NoMemory>
    requires types { AreTypes (types_of types.now) }
    requires known { AreKnown (types_of types.now) known.now }
    requires next { IsNextMember (types_of types.now) (length known.now) before.end (member_of member.now) }
    ensures ok { OnOk result (out.new
        ≡ out.old ++ sub_of (types_of types.now) before.end (member_of member.now)) }
    ensures laid { IfOk result
        (Follows before (tree_of (types_of types.now) (shape_of member.now.kind))) }
    ensures no_memory { OnErr result (Extends out.old out.new) }
{
    let t = member.kind.as_ref();
    let layout = shape_layout(types, known, t);
    let offset = next_multiple(before.end, layout.align);
    let mut kind = Octets::new(alloc);
    type_text(alloc, types, t, &mut kind)?;
    let fields = Fields {
        size: layout.size,
        offset,
        type_id: layout.type_id,
        flags: 2,
        name: member.name.as_slice(),
        kind: kind.as_slice(),
        comment: member.comment.as_slice(),
        dims: dims_of(t),
    };
    append_fields(alloc, &fields, 0, 0, out)?;
    Ok(Laid {
        end: offset + layout.size,
        align: before.align.max(layout.align),
    })
}

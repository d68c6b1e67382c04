//! Type entries are written.

ghost use Rattle.std.specs.Prelude.{◌≡◌, ◌≤◌, ◌++◌, length, slice_get, Some, OnOk, OnErr, IfOk};
ghost use Rattle.ads_base.specs.Octets.{Extends};
ghost use Rattle.spec_formats.specs.TypeEntry.{type_upload_bytes};
ghost use Rattle.spec_plant.specs.Trees.{EnumTree, named_tree, trees_of};
ghost use Rattle.spec_plant.specs.AcceptedTypes.{AreTypes};
ghost use Rattle.spec_formats.specs.TypeUpload.{entries_of_types};
ghost use Rattle.type_layout.specs.Shapes.{kind_of};
ghost use Rattle.type_layout.specs.NamedTypes.{types_of, named_type_of, structure_of};
ghost use Rattle.type_upload.specs.Layouts.{AreKnown, HasLayout};
ghost use Rattle.type_upload.specs.NextMembers.{tree_bytes};

use crate::fields::{Fields, append_fields};
use crate::layouts::{Layout, plain_layout};
use crate::members::append_members;
use ads_base::{ListOf, NoMemory, Octets};
use std::alloc::Global;
use type_layout::{Elem, EnumType, NamedType, StructType, TypeRef, Types, type_text};

/// Appends the type upload: an entry for each type, in the order of the list. The entry of a structure has id 65,
/// flags 1, and a sub entry for each member with its place, flags 2, canonical type text and dimensions; that of an
/// enumeration has its base's id, flags 1 and its base's word as type. Versions are 1, hashes 0.
pub fn put_types(alloc: Global, types: &Types, out: &mut Octets) -> Result<(), NoMemory>
    requires { AreTypes (types_of types.now) }
    ensures ok { OnOk result (out.new
        ≡ out.old ++ type_upload_bytes (entries_of_types (trees_of (types_of types.now)))) }
    ensures no_memory { OnErr result (out.new ≡ out.old) }
{
    let before = out.len();
    let put = append_types(alloc, types, out);
    out.cut_back(before, put)
}

// After an error a part of the upload may stand there.
fn append_types(alloc: Global, types: &Types, out: &mut Octets) -> Result<(), NoMemory>
    requires { AreTypes (types_of types.now) }
    ensures ok { OnOk result (out.new
        ≡ out.old ++ type_upload_bytes (entries_of_types (trees_of (types_of types.now)))) }
    ensures no_memory { OnErr result (Extends out.old out.new) }
{
    let mut known = ListOf::new(alloc);
    for named in types.as_slice() {
        let layout = append_type(alloc, types, known.as_slice(), named, out)?;
        known.push(alloc, layout)?;
    }
    Ok(())
}

// The entry of the type that stands behind the known ones, and its layout.
pub(crate) fn append_type(
    alloc: Global,
    types: &Types,
    known: &[Layout],
    named: &NamedType,
    out: &mut Octets,
) -> Result<Layout, NoMemory>
    requires types { AreTypes (types_of types.now) }
    requires known { AreKnown (types_of types.now) known.now }
    requires there { slice_get (types_of types.now) (length known.now) ≡ Some (named_type_of named.now) }
    ensures ok { OnOk result (out.new
        ≡ out.old ++ tree_bytes (named_tree (trees_of (types_of types.now)) (named_type_of named.now))) }
    ensures layout { IfOk result
        (HasLayout (named_tree (trees_of (types_of types.now)) (named_type_of named.now))) }
    ensures no_memory { OnErr result (Extends out.old out.new) }
{
    match named {
        NamedType::Struct(s) => append_structure(alloc, types, known, s, out),
        NamedType::Enum(e) => append_enumeration(alloc, types, e, out),
    }
}

fn append_structure(
    alloc: Global,
    types: &Types,
    known: &[Layout],
    s: &StructType,
    out: &mut Octets,
) -> Result<Layout, NoMemory>
    requires types { AreTypes (types_of types.now) }
    requires known { AreKnown (types_of types.now) known.now }
    requires there { slice_get (types_of types.now) (length known.now) ≡ Some (structure_of s.now) }
    ensures ok { OnOk result (out.new
        ≡ out.old ++ tree_bytes (named_tree (trees_of (types_of types.now)) (structure_of s.now))) }
    ensures layout { IfOk result
        (HasLayout (named_tree (trees_of (types_of types.now)) (structure_of s.now))) }
    ensures no_memory { OnErr result (Extends out.old out.new) }
{
    let mut subs = Octets::new(alloc);
    let layout = append_members(alloc, types, known, s, &mut subs)?;
    let fields = Fields {
        size: layout.size,
        offset: 0,
        type_id: layout.type_id,
        flags: 1,
        name: s.name.as_slice(),
        kind: b"",
        comment: b"",
        dims: &[],
    };
    append_fields(alloc, &fields, subs.len(), s.members.len() as u16, out)?;
    out.put(alloc, subs.as_slice())?;
    Ok(layout)
}

#[tactic(auto, unfolding(spec_plant::specs::Sizes::type_size, spec_plant::specs::Sizes::type_align, spec_plant::specs::Spelling::type_text))]
fn append_enumeration(
    alloc: Global,
    types: &Types,
    e: &EnumType,
    out: &mut Octets,
) -> Result<Layout, NoMemory>
    requires types { AreTypes (types_of types.now) }
    requires short { length e.now.name ≤ 255 }
    ensures ok { OnOk result (out.new ≡ out.old ++ tree_bytes (EnumTree e.now.name (kind_of e.now.base))) }
    ensures layout { IfOk result (HasLayout (EnumTree e.now.name (kind_of e.now.base))) }
    ensures no_memory { OnErr result (Extends out.old out.new) }
{
    let layout = plain_layout(types, e.base);
    let mut word = Octets::new(alloc);
    type_text(alloc, types, TypeRef::One(Elem::Plain(e.base)), &mut word)?;
    let fields = Fields {
        size: layout.size,
        offset: 0,
        type_id: layout.type_id,
        flags: 1,
        name: e.name.as_slice(),
        kind: word.as_slice(),
        comment: b"",
        dims: &[],
    };
    append_fields(alloc, &fields, 0, 0, out)?;
    Ok(layout)
}

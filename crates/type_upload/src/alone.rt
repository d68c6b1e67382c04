//! The entry of one type is written.

ghost use Rattle.std.specs.Prelude.{◌≡◌, ◌+◌, ◌<◌, ◌≤◌, ◌^◌, ◌++◌, length, OnOk, OnErr, IfOk};
ghost use Rattle.ads_base.specs.Octets.{Extends};
ghost use Rattle.spec_formats.specs.TypeEntry.{type_bytes, type_upload_bytes};
ghost use Rattle.spec_plant.specs.Spelling.{type_text};
ghost use Rattle.spec_plant.specs.Trees.{tree_at, tree_of, trees_of};
ghost use Rattle.spec_plant.specs.AcceptedTypes.{AreTypes, IsSized};
ghost use Rattle.spec_formats.specs.TypeUpload.{entry_of_type};
ghost use Rattle.type_layout.specs.NamedTypes.{types_of};
ghost use Rattle.type_layout.specs.Shapes.{shape_of_ref};
ghost use Rattle.type_upload.specs.Alone.{entry_alone};
ghost use Rattle.type_upload.specs.Layouts.{AreKnown};
ghost use Rattle.type_upload.specs.NextMembers.{bounds_within};

use crate::fields::{Fields, append_fields};
use crate::layouts::{Layout, dims_of};
use crate::writing::append_type;
use ads_base::{ListOf, NoMemory, Octets};
use std::alloc::Global;
use type_layout::{TypeRef, Types, size, type_text};

/// Appends the entry that the upload has for the type at a place of the list.
pub fn put_type_at(
    alloc: Global,
    types: &Types,
    place: u16,
    out: &mut Octets,
) -> Result<(), NoMemory>
    requires types { AreTypes (types_of types.now) }
    requires there { place < length types.now }
    ensures ok { OnOk result (out.new
        ≡ out.old ++ type_upload_bytes (entry_of_type (tree_at (trees_of (types_of types.now)) place))) }
    ensures no_memory { OnErr result (out.new ≡ out.old) }
{
    let known = layouts_before(alloc, types, place as usize)?;
    let before = out.len();
    let put = append_type_at(alloc, types, known.as_slice(), place, out);
    out.cut_back(before, put)
}

// After an error a part of the entry may stand there.
fn append_type_at(
    alloc: Global,
    types: &Types,
    known: &[Layout],
    place: u16,
    out: &mut Octets,
) -> Result<(), NoMemory>
    requires types { AreTypes (types_of types.now) }
    requires known { AreKnown (types_of types.now) known.now }
    requires all { length known.now ≡ place }
    requires there { place < length types.now }
    ensures ok { OnOk result (out.new
        ≡ out.old ++ type_upload_bytes (entry_of_type (tree_at (trees_of (types_of types.now)) place))) }
    ensures no_memory { OnErr result (Extends out.old out.new) }
{
    append_type(alloc, types, known, &types.as_slice()[place as usize], out)?;
    Ok(())
}

// The layouts of the first types of the list, as many as are asked for.
fn layouts_before(alloc: Global, types: &Types, count: usize) -> Result<ListOf<Layout>, NoMemory>
    requires types { AreTypes (types_of types.now) }
    requires there { count ≤ length types.now }
    ensures known { IfOk result (λ known. AreKnown (types_of types.now) known) }
    ensures all { IfOk result (λ known. length known ≡ count) }
{
    let mut entry = Octets::new(alloc);
    let mut known = ListOf::new(alloc);
    for place in 0..count {
        entry.cut(0);
        let named = &types.as_slice()[place];
        let layout = append_type(alloc, types, known.as_slice(), named, &mut entry)?;
        known.push(alloc, layout)?;
    }
    Ok(known)
}

/// Appends the entry of a type without members: its size, its canonical text and its dimensions, with this id and this text
/// of a type.
pub fn put_type_alone(
    alloc: Global,
    types: &Types,
    t: TypeRef<'_>,
    id: u32,
    kind: &[u8],
    out: &mut Octets,
) -> Result<(), NoMemory>
    requires types { AreTypes (types_of types.now) }
    requires sized { IsSized (types_of types.now) (shape_of_ref t) }
    requires text { length (type_text (tree_of (types_of types.now) (shape_of_ref t))) ≤ 400 }
    requires few { length (bounds_within (shape_of_ref t)) ≤ 3 }
    requires kind { length kind.now ≤ 400 }
    ensures ok { OnOk result (out.new
        ≡ out.old ++ type_bytes (entry_alone (tree_of (types_of types.now) (shape_of_ref t.entry)) id kind.now)) }
    ensures no_memory { OnErr result (out.new ≡ out.old) }
{
    let before = out.len();
    let put = append_type_alone(alloc, types, t, id, kind, out);
    out.cut_back(before, put)
}

// After an error a part of the entry may stand there.
#[tactic(auto, using(crate::proofs::LayoutLemmas::names_are_there))]
fn append_type_alone(
    alloc: Global,
    types: &Types,
    t: TypeRef<'_>,
    id: u32,
    kind: &[u8],
    out: &mut Octets,
) -> Result<(), NoMemory>
    requires types { AreTypes (types_of types.now) }
    requires sized { IsSized (types_of types.now) (shape_of_ref t) }
    requires text { length (type_text (tree_of (types_of types.now) (shape_of_ref t))) ≤ 400 }
    requires few { length (bounds_within (shape_of_ref t)) ≤ 3 }
    requires kind { length kind.now ≤ 400 }
    ensures ok { OnOk result (out.new
        ≡ out.old ++ type_bytes (entry_alone (tree_of (types_of types.now) (shape_of_ref t.entry)) id kind.now)) }
    ensures no_memory { OnErr result (Extends out.old out.new) }
{
    let bytes = size(types, t);
    let mut text = Octets::new(alloc);
    type_text(alloc, types, t, &mut text)?;
    let fields = Fields {
        size: bytes,
        offset: 0,
        type_id: id,
        flags: 1,
        name: text.as_slice(),
        kind,
        comment: b"",
        dims: dims_of(t),
    };
    append_fields(alloc, &fields, 0, 0, out)?;
    Ok(())
}

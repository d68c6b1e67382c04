//! The steps of a path as they are declared: a full stop and a member's name, or indexes in brackets.

ghost use Rattle.std.specs.Prelude.{◌≡◌, ◌++◌, ◌∷◌, [], OnOk, OnErr};
ghost use Rattle.name_paths.specs.Indexes.{numbers_of_indexes};
ghost use Rattle.name_paths.specs.Steps.{step_of};
ghost use Rattle.spec_plant.specs.AcceptedTypes.{AreTypes, IsSized};
ghost use Rattle.spec_plant.specs.PartTexts.{name_behind, text_of_indexes, text_of_member, text_of_step, type_behind};
ghost use Rattle.spec_plant.specs.Parts.{member_of, part_of};
ghost use Rattle.spec_plant.specs.Spelling.{integer_text};
ghost use Rattle.spec_plant.specs.Trees.{tree_of};
ghost use Rattle.type_layout.specs.Extents.{extents_of};
ghost use Rattle.type_layout.specs.Shapes.{shape_of_ref};
ghost use Rattle.type_layout.specs.NamedTypes.{types_of};
ghost use Rattle.type_layout.specs.Spelled.{Extends};

use crate::members::member_named;
use ads_base::{NoMemory, Octets};
use name_paths::{Indexes, LaterSteps, Step};
use std::alloc::Global;
use type_layout::{Extents, TypeRef, Types};

/// Appends these steps as they are declared. After want of memory a part of the text may stand there.
pub fn append_steps(
    alloc: Global,
    types: &Types,
    extents: &Extents,
    kind: TypeRef<'_>,
    steps: &LaterSteps<'_>,
    out: &mut Octets,
) -> Result<(), NoMemory>
    requires types { AreTypes (types_of types.now) }
    requires extents { extents.now ≡ extents_of (types_of types.now) }
    requires sized { IsSized (types_of types.now) (shape_of_ref kind) }
    ensures ok { OnOk result (out.new
        ≡ name_behind out.old (tree_of (types_of types.now) (shape_of_ref kind.entry)) steps.now) }
    ensures no_memory { OnErr result (Extends out.old out.new) }
{
    match steps.next() {
        None => Ok(()),
        Some((step, rest)) => {
            append_step(alloc, types, kind, &step, out)?;
            append_steps(
                alloc,
                types,
                extents,
                kind_behind(types, extents, kind, &step),
                &rest,
                out,
            )
        }
    }
}

// The type behind a step, where it leads to a part.
fn kind_behind<'a>(
    types: &'a Types,
    extents: &Extents,
    kind: TypeRef<'a>,
    step: &Step<'_>,
) -> TypeRef<'a>
    requires types { AreTypes (types_of types.now) }
    requires extents { extents.now ≡ extents_of (types_of types.now) }
    requires sized { IsSized (types_of types.now) (shape_of_ref kind) }
    ensures kind { tree_of (types_of types.now) (shape_of_ref result)
        ≡ type_behind (tree_of (types_of types.now) (shape_of_ref kind.entry))
        (part_of (tree_of (types_of types.now) (shape_of_ref kind.entry)) (step_of step.now)) }
    ensures sized { IsSized (types_of types.now) (shape_of_ref result) }
{
    match extents.member(types, kind, step) {
        None => kind,
        Some((_, next)) => next,
    }
}

fn append_step(
    alloc: Global,
    types: &Types,
    kind: TypeRef<'_>,
    step: &Step<'_>,
    out: &mut Octets,
) -> Result<(), NoMemory>
    requires types { AreTypes (types_of types.now) }
    requires sized { IsSized (types_of types.now) (shape_of_ref kind) }
    ensures ok { OnOk result (out.new
        ≡ out.old ++ text_of_step (tree_of (types_of types.now) (shape_of_ref kind.entry)) (step_of step.now)) }
    ensures no_memory { OnErr result (Extends out.old out.new) }
{
    match step {
        Step::Name(name) => append_member(alloc, types, kind, name, out),
        Step::Index(indexes) => append_indexes(alloc, *indexes, out),
    }
}

// A full stop and the declared name of the member with this name.
fn append_member(
    alloc: Global,
    types: &Types,
    kind: TypeRef<'_>,
    name: &[u8],
    out: &mut Octets,
) -> Result<(), NoMemory>
    requires types { AreTypes (types_of types.now) }
    requires sized { IsSized (types_of types.now) (shape_of_ref kind) }
    ensures ok { OnOk result (out.new ≡ out.old
        ++ text_of_member (member_of (tree_of (types_of types.now) (shape_of_ref kind.entry)) name.now)) }
    ensures no_memory { OnErr result (Extends out.old out.new) }
{
    match member_named(types, kind, name) {
        None => Ok(()),
        Some(member) => append_dotted(alloc, member.name.as_slice(), out),
    }
}

fn append_dotted(alloc: Global, name: &[u8], out: &mut Octets) -> Result<(), NoMemory>
    ensures ok { OnOk result (out.new ≡ out.old ++ 46 ∷ name.now) }
    ensures no_memory { OnErr result (Extends out.old out.new) }
{
    out.push(alloc, b'.')?;
    out.put(alloc, name)
}

// One to three indexes in brackets.
fn append_indexes(alloc: Global, indexes: Indexes, out: &mut Octets) -> Result<(), NoMemory>
    ensures ok { OnOk result (out.new ≡ out.old ++ text_of_indexes (numbers_of_indexes indexes)) }
    ensures no_memory { OnErr result (Extends out.old out.new) }
{
    if indexes.count == 1 {
        append_row(alloc, indexes.i, out)
    } else if indexes.count == 2 {
        append_plane(alloc, indexes.i, indexes.j, out)
    } else {
        append_space(alloc, indexes.i, indexes.j, indexes.k, out)
    }
}

fn append_row(alloc: Global, i: i32, out: &mut Octets) -> Result<(), NoMemory>
    ensures ok { OnOk result (out.new ≡ out.old ++ text_of_indexes (i ∷ [])) }
    ensures no_memory { OnErr result (Extends out.old out.new) }
{
    append_index(alloc, b'[', i, out)?;
    out.push(alloc, b']')
}

fn append_plane(alloc: Global, i: i32, j: i32, out: &mut Octets) -> Result<(), NoMemory>
    ensures ok { OnOk result (out.new ≡ out.old ++ text_of_indexes (i ∷ j ∷ [])) }
    ensures no_memory { OnErr result (Extends out.old out.new) }
{
    append_index(alloc, b'[', i, out)?;
    append_index(alloc, b',', j, out)?;
    out.push(alloc, b']')
}

fn append_space(alloc: Global, i: i32, j: i32, k: i32, out: &mut Octets) -> Result<(), NoMemory>
    ensures ok { OnOk result (out.new ≡ out.old ++ text_of_indexes (i ∷ j ∷ k ∷ [])) }
    ensures no_memory { OnErr result (Extends out.old out.new) }
{
    append_index(alloc, b'[', i, out)?;
    append_index(alloc, b',', j, out)?;
    append_index(alloc, b',', k, out)?;
    out.push(alloc, b']')
}

// An index behind a bracket or a comma.
fn append_index(alloc: Global, before: u8, index: i32, out: &mut Octets) -> Result<(), NoMemory>
    ensures ok { OnOk result (out.new ≡ out.old ++ before ∷ integer_text index) }
    ensures no_memory { OnErr result (Extends out.old out.new) }
{
    out.push(alloc, before)?;
    put_index(alloc, index, out)
}

fn put_index(alloc: Global, index: i32, out: &mut Octets) -> Result<(), NoMemory>
    ensures ok { OnOk result (out.new ≡ out.old ++ integer_text index) }
    ensures no_memory { OnErr result (out.new ≡ out.old) }
{
    let text = format!(in alloc; "{index}")?;
    out.put(alloc, text.as_bytes())
}

//! What the answers lead to by which the leaves of a value are printed.

ghost use Rattle.std.specs.Prelude.{◌≡◌, ℕ, List, map, take, drop, IfOk};
ghost use Rattle.spec_client.specs.Entries.{types_in};
ghost use Rattle.spec_client.specs.Leaves.{leaf_line};
ghost use Rattle.spec_client.specs.Replies as replies;
ghost use Rattle.spec_client.specs.Stages as stages;
ghost use Rattle.client_leaves.specs.Kept.{leaf_kept};
ghost use Rattle.client_replies.specs.Kept.{entry_kept};
ghost use Rattle.client_replies.specs.Stages.{output_kept};
ghost use Rattle.client_replies.specs.Parts.{told};

use crate::asking::{type_upload_request, value_request};
use crate::own_entry::OwnEntry;
use crate::printed::leaf_line;
use crate::progress::sending;
use crate::stage::{CallEnd, Output, Progress, Stage};
use ads_base::{ListOf, NoMemory, Octets, get32};
use client_leaves::{Leaf, leaves_in};
use std::alloc::Global;

/// The number of types and the size of their upload came.
pub(crate) fn after_type_info(
    alloc: Global,
    name: Octets,
    entry: OwnEntry,
    bytes: &[u8],
) -> Result<Option<Progress>, NoMemory>
    ensures { IfOk result (λ found. (payload : List ℕ) → told found payload
        ≡ replies.after_type_info name (entry_kept entry) bytes.now payload) }
{
    if bytes.len() != 24 {
        return Ok(None);
    }
    let asked = type_upload_request(get32(bytes, 12));
    let stage = Stage::AwaitsTypes(name, entry, get32(bytes, 8));
    let progress = sending(alloc, stage, asked)?;
    Ok(Some(progress))
}

/// The upload of the types came. All that the leaves meet are looked at before the value is asked for.
pub(crate) fn after_types(
    alloc: Global,
    name: Octets,
    entry: &OwnEntry,
    count: u32,
    bytes: &[u8],
) -> Result<Option<Progress>, NoMemory>
    ensures { IfOk result (λ found. (payload : List ℕ) → told found payload
        ≡ replies.after_types name (entry_kept entry.now) (types_in count bytes.now) payload) }
{
    let size = entry.size;
    match leaves_in(
        alloc,
        count,
        bytes,
        entry.name.as_slice(),
        entry.kind.as_slice(),
        size,
    )? {
        None => Ok(None),
        Some(leaves) => {
            let asked = value_request(name, size);
            let progress = sending(alloc, Stage::AwaitsLeaves(size, leaves), asked)?;
            Ok(Some(progress))
        }
    }
}

/// The value came whose leaves are printed.
pub(crate) fn after_leaves(
    alloc: Global,
    size: u32,
    leaves: &[Leaf],
    bytes: &[u8],
) -> Result<Option<Progress>, NoMemory>
    ensures { IfOk result (λ found. (payload : List ℕ) → told found payload
        ≡ replies.after_leaves size (map leaf_kept leaves.now) bytes.now payload) }
{
    if bytes.len() != size as usize {
        return Ok(None);
    }
    let outputs = leaf_lines(alloc, leaves, bytes)?;
    Ok(Some(Progress {
        stage: Stage::Finished(CallEnd::Done),
        outputs,
    }))
}

fn leaf_lines(alloc: Global, leaves: &[Leaf], bytes: &[u8]) -> Result<ListOf<Output>, NoMemory>
    ensures { IfOk result (λ outputs. map output_kept outputs
        ≡ map (λ l. stages.ToPrint (leaf_line bytes.now l)) (map leaf_kept leaves.now)) }
{
    let mut outputs = ListOf::new(alloc);
    for leaf in leaves {
        let line = leaf_line(alloc, leaf, bytes)?;
        outputs.push(alloc, Output::ToPrint(line))?;
    }
    Ok(outputs)
}

//! Answers that are whole symbol entries.

ghost use Rattle.std.specs.Prelude.{◌≡◌, ◌≤◌, [], map, option_map, IfOk, IfSome};
ghost use Rattle.symbol_info.specs.Entry.{entry_meant};
ghost use Rattle.spec_client.specs.Entries.{entries_in, one_entry_in};
ghost use Rattle.client_replies.specs.Kept.{entry_kept};
ghost use Rattle.client_replies.specs.Stages.{output_kept};
ghost use Rattle.client_replies.specs.Parts.{taken_entry_in, only_entry_in, outputs_behind};

use crate::own_entry::{OwnEntry, own_entry};
use crate::printed::entry_line;
use crate::stage::Output;
use ads_base::{ListOf, NoMemory};
use std::alloc::Global;
use symbol_info::{Entry, read_entry};

/// The greatest size of a symbol that a call takes.
const MAX_SIZE: u32 = 1_048_576;

/// The one entry of an answer, with nothing behind it.
#[tactic(auto, using(crate::proofs::EntryLines::only_is_one))]
pub(crate) fn one_entry(alloc: Global, bytes: &[u8]) -> Result<Option<OwnEntry>, NoMemory>
    ensures entry { IfOk result (λ found. option_map entry_kept found ≡ one_entry_in bytes.now) }
    ensures size { IfOk result (λ found. IfSome found (λ e. e.size ≤ 1048576)) }
{
    match only_entry(bytes) {
        None => Ok(None),
        Some(entry) => {
            let own = own_entry(alloc, &entry)?;
            Ok(Some(own))
        }
    }
}

#[tactic(auto, unfolding(crate::specs::Parts::only_entry_in))]
fn only_entry(bytes: &[u8]) -> Option<Entry<'_>>
    ensures entry { option_map entry_meant result ≡ only_entry_in bytes.now }
    ensures size { IfSome result (λ e. e.size ≤ 1048576) }
{
    let (entry, rest) = taken_entry(bytes)?;
    if rest.is_empty() { Some(entry) } else { None }
}

// The first entry, where it is not too big, and what stands behind it.
#[tactic(auto, unfolding(crate::specs::Parts::taken_entry_in))]
fn taken_entry(bytes: &[u8]) -> Option<(Entry<'_>, &[u8])>
    ensures entry { option_map (λ (e, rest). (entry_meant e, rest.now)) result ≡ taken_entry_in bytes.now }
    ensures size { IfSome result (λ (e, _). e.size ≤ 1048576) }
{
    let (entry, rest) = read_entry(bytes)?;
    if entry.size <= MAX_SIZE {
        Some((entry, rest))
    } else {
        None
    }
}

/// The lines of so many entries, with nothing behind them.
pub(crate) fn entry_lines(
    alloc: Global,
    count: u32,
    bytes: &[u8],
) -> Result<Option<ListOf<Output>>, NoMemory>
    ensures { IfOk result (λ found. option_map (λ outputs. map output_kept outputs) found
        ≡ outputs_behind [] (entries_in count bytes.now)) }
{
    let mut outputs = ListOf::new(alloc);
    let mut rest = bytes;
    'entries: for i in 0..count {
        match taken_entry(rest) {
            None => return Ok(None),
            Some((entry, behind)) => {
                let line = entry_line(alloc, &entry)?;
                outputs.push(alloc, Output::ToPrint(line))?;
                rest = behind;
            }
        }
    }
    if rest.is_empty() {
        Ok(Some(outputs))
    } else {
        Ok(None)
    }
}

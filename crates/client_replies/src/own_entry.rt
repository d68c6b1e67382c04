//! A symbol entry that is kept.

ghost use Rattle.std.specs.Prelude.{◌≡◌, IfOk, take, codes};
ghost use Rattle.spec_plant.specs.TypeTexts.{is_same_word};
ghost use Rattle.spec_client.specs.Entries.{value_id, with_value_id};
ghost use Rattle.symbol_info.specs.Entry.{entry_meant};
ghost use Rattle.client_replies.specs.Kept.{entry_kept};

use ads_base::{NoMemory, Octets};
use std::alloc::Global;
use symbol_info::Entry;

/// The type id of an array, which is one value of bytes.
const ARRAY: u32 = 65;

/// What a symbol entry says of a symbol.
///
/// Beckhoff Information System, "AdsSymbolEntry".
#[derive(Debug, Drop)]
pub struct OwnEntry {
    pub group: u32,
    pub offset: u32,
    pub size: u32,
    pub type_id: u32,
    pub flags: u32,
    pub name: Octets,
    pub kind: Octets,
    pub comment: Octets,
}

/// A copy of an entry, with the type id that its value is written and read by.
pub(crate) fn own_entry(alloc: Global, e: &Entry<'_>) -> Result<OwnEntry, NoMemory>
    ensures { IfOk result (λ own. entry_kept own ≡ with_value_id (entry_meant e.now)) }
{
    let name = Octets::copy_of(alloc, e.name)?;
    let kind = Octets::copy_of(alloc, e.kind)?;
    let comment = Octets::copy_of(alloc, e.comment)?;
    Ok(OwnEntry {
        group: e.group,
        offset: e.offset,
        size: e.size,
        type_id: value_id(e),
        flags: e.flags,
        name,
        kind,
        comment,
    })
}

/// TwinCAT, and `adsd` in the wide profile, tell the id of an array's element: by that, an array of STRING would be one text.
fn value_id(e: &Entry<'_>) -> u32
    ensures { result ≡ value_id (entry_meant e.now) }
{
    if is_array_text(e.kind) {
        ARRAY
    } else {
        e.type_id
    }
}

fn is_array_text(text: &[u8]) -> bool
    ensures { result ≡ is_same_word (take 7 text.now) (codes "ARRAY [") }
{
    if text.len() < 7 {
        return false;
    }
    text[..7].eq_ignore_ascii_case(b"ARRAY [")
}

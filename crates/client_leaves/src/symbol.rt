//! The leaves of a symbol.

ghost use Rattle.std.specs.Prelude.{◌≡◌, map, option_map, IfOk};
ghost use Rattle.std.specs.Option.{option_and_then};
ghost use Rattle.spec_client.specs.Entries.{types_in};
ghost use Rattle.client_leaves.specs.Entries.{IsIndexed, entries_meant};
ghost use Rattle.client_leaves.specs.Found.{leaves_found};
ghost use Rattle.client_leaves.specs.Kept.{leaf_kept};
ghost use Rattle.client_leaves.specs.Table.{IsTable, types_kept};

use crate::entries::Entries;
use crate::leaf::Leaf;
use crate::reading::{read_entries, read_types};
use crate::sizes::text_size;
use crate::table::ReadType;
use crate::walk::text_leaves;
use ads_base::{ListOf, NoMemory};
use std::alloc::Global;

/// The leaves of a symbol of this name, type and size, by an upload of so many types. None where these types do not
/// stand in the upload with nothing behind them, or the symbol's are not sound: a type that its leaves meet is not
/// there, has no bytes or another size, its members overlap or go past its end, or structures are nested more than 16
/// deep.
///
/// Beckhoff Information System, "AdsDatatypeEntry".
pub fn leaves_in(
    alloc: Global,
    count: u32,
    upload: &[u8],
    name: &[u8],
    kind: &[u8],
    size: u32,
) -> Result<Option<ListOf<Leaf>>, NoMemory>
    ensures { IfOk result (λ found. option_map (λ leaves. map leaf_kept leaves) found
        ≡ option_and_then (leaves_found size name.now kind.now) (types_in count upload.now)) }
{
    match read_entries(alloc, count, upload)? {
        None => Ok(None),
        Some(entries) => {
            let types = read_types(alloc, &entries)?;
            let found = symbol_leaves(alloc, &entries, types.as_slice(), name, kind, size)?;
            Ok(found)
        }
    }
}

#[tactic(auto, unfolding(crate::specs::Found::leaves_found))]
fn symbol_leaves(
    alloc: Global,
    entries: &Entries<'_>,
    types: &[ReadType<'_>],
    name: &[u8],
    kind: &[u8],
    size: u32,
) -> Result<Option<ListOf<Leaf>>, NoMemory>
    requires indexed { IsIndexed entries.now }
    requires table { IsTable types.now }
    requires same { types_kept types.now ≡ entries_meant entries.now }
    ensures { IfOk result (λ found. option_map (λ leaves. map leaf_kept leaves) found
        ≡ leaves_found size name.now kind.now (types_kept types.now)) }
{
    match entries.found_text(kind) {
        None => Ok(None),
        Some(text) => {
            if text_size(types, &text) != u128::from(size) {
                return Ok(None);
            }
            let mut leaves = ListOf::new(alloc);
            let sound = text_leaves(alloc, types, 16, &text, name, 0, &mut leaves)?;
            if sound { Ok(Some(leaves)) } else { Ok(None) }
        }
    }
}

//! The entries of a body in a list.

ghost use Rattle.std.specs.Prelude.{◌≡◌, map, IfOk, Some};
ghost use Rattle.persist_store.specs.Entries.{entry_meant};
ghost use Rattle.stored_values.specs.StoredBodies.{entries_stored};

use ads_base::NoMemory;
use persist_store::{Entries, StoredEntry};
use std::alloc::Global;

/// The entries of a body; none where the bytes are no body text.
pub(crate) fn list_entries(alloc: Global, body: &[u8]) -> Result<Vec<StoredEntry<'_>>, NoMemory>
    ensures { IfOk result (λ list. map entry_meant list.items ≡ entries_stored (Some body.now)) }
{
    match Entries::read(body) {
        None => Ok(Vec::new(alloc)),
        Some(entries) => list_left(alloc, entries),
    }
}

fn list_left<'a>(alloc: Global, entries: Entries<'a>) -> Result<Vec<StoredEntry<'a>>, NoMemory>
    ensures { IfOk result (λ list. map entry_meant list.items ≡ entries.entry) }
{
    let mut left = entries;
    let mut list = Vec::new(alloc);
    while let Some(entry) = left.next() {
        list.push(entry)?;
    }
    Ok(list)
}

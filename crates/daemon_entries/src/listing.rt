//! The entries of bodies in a list.

ghost use Rattle.std.specs.Prelude.{◌≡◌, ◌++◌, map, IfOk, Some};
ghost use Rattle.persist_store.specs.Entries.{entry_meant};
ghost use Rattle.stored_values.specs.StoredBodies.{entries_stored};

use ads_base::NoMemory;
use persist_store::{Entries, StoredEntry};

/// The entries of a list, and behind them those of a body; none where the bytes are no body text.
pub fn with_entries<'a>(
    list: Vec<StoredEntry<'a>>,
    body: &'a [u8],
) -> Result<Vec<StoredEntry<'a>>, NoMemory>
    ensures { IfOk result (λ more. map entry_meant more.items ≡ map entry_meant list.entry.items ++ entries_stored (Some body.now)) }
{
    match Entries::read(body) {
        None => Ok(list),
        Some(entries) => with_left(list, entries),
    }
}

fn with_left<'a>(
    list: Vec<StoredEntry<'a>>,
    entries: Entries<'a>,
) -> Result<Vec<StoredEntry<'a>>, NoMemory>
    ensures { IfOk result (λ more. map entry_meant more.items ≡ map entry_meant list.entry.items ++ entries.entry) }
{
    let mut left = entries;
    let mut more = list;
    while let Some(entry) = left.next() {
        more.push(entry)?;
    }
    Ok(more)
}

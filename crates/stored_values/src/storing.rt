//! A description that begins with stored bytes.

ghost use Rattle.std.specs.Prelude.{◌≡◌, map, IfOk, Some};
ghost use Rattle.spec_persistent.specs.Stored.{description_with_stored};
ghost use Rattle.type_layout.specs.Descriptions.{description_of};
ghost use Rattle.persist_store.specs.Entries.{entry_meant};
ghost use Rattle.stored_values.specs.StoredBodies.{IsAcceptedForSome, entries_stored, bytes_lent};

use crate::entry_list::list_entries;
use crate::ports::store_ports;
use ads_base::NoMemory;
use persist_store::StoredEntry;
use std::alloc::Global;
use type_layout::Description;

/// An accepted description whose persistent symbols begin with the bytes of a stored body: of each the first entry with
/// its port, name (ASCII case aside), form and size. A symbol without such an entry begins with its own bytes, and so do
/// all where there is no body.
pub fn with_stored(
    alloc: Global,
    d: Description,
    body: Option<&[u8]>,
) -> Result<Description, NoMemory>
    requires accepted { IsAcceptedForSome (description_of d) }
    ensures { IfOk result (λ stored. description_of stored
        ≡ description_with_stored (entries_stored (bytes_lent body.entry)) (description_of d)) }
{
    match body {
        None => with_entries(alloc, d, &[]),
        Some(body) => with_body(alloc, d, body),
    }
}

fn with_body(alloc: Global, d: Description, body: &[u8]) -> Result<Description, NoMemory>
    requires accepted { IsAcceptedForSome (description_of d) }
    ensures { IfOk result (λ stored. description_of stored
        ≡ description_with_stored (entries_stored (Some body.now)) (description_of d)) }
{
    let entries = list_entries(alloc, body)?;
    with_entries(alloc, d, entries.as_slice())
}

fn with_entries(
    alloc: Global,
    d: Description,
    entries: &[StoredEntry<'_>],
) -> Result<Description, NoMemory>
    requires accepted { IsAcceptedForSome (description_of d) }
    ensures { IfOk result (λ stored. description_of stored
        ≡ description_with_stored (map entry_meant entries.now) (description_of d)) }
{
    let mut stored = d;
    store_ports(alloc, entries, &stored.types, stored.ports.as_mut_slice())?;
    Ok(stored)
}

//! The stored entry of a symbol.

ghost use Rattle.std.specs.Prelude.{◌≡◌, map, find, option_map, bytes_eq};
ghost use Rattle.name_paths.specs.Identifier.{lower};
ghost use Rattle.persist_store.specs.Entries.{entry_meant};
ghost use Rattle.stored_values.specs.StoredBodies.{is_of};

use persist_store::StoredEntry;

/// The first entry of the symbol with this port, name, form and size.
pub(crate) fn first_of<'a>(
    entries: &[StoredEntry<'a>],
    port: u16,
    name: &[u8],
    form: &[u8],
    size: u32,
) -> Option<StoredEntry<'a>>
    ensures { option_map entry_meant result ≡ find (is_of port name.now form.now size) (map entry_meant entries.now) }
{
    for entry in entries {
        if is_of(entry, port, name, form, size) {
            return Some(*entry);
        }
    }
    None
}

// Whether an entry is of the symbol with this port, name, form and size.
fn is_of(entry: &StoredEntry<'_>, port: u16, name: &[u8], form: &[u8], size: u32) -> bool
    ensures { result ≡ is_of port name.now form.now size (entry_meant entry.now) }
{
    entry.port == port
        && is_same_name(entry.name, name)
        && entry.form == form
        && entry.bytes.len() == size as usize
}

// Whether two names are the same, ASCII case aside.
fn is_same_name(a: &[u8], b: &[u8]) -> bool
    ensures { result ≡ bytes_eq (lower a.now) (lower b.now) }
{
    a.eq_ignore_ascii_case(b)
}

//! The entries of a body that others leave out.

ghost use Rattle.std.specs.Prelude.{◌≡◌, map, bytes_eq, is_some, true, IfOk, Some};
ghost use Rattle.std.specs.List.{list_any};
ghost use Rattle.name_paths.specs.Identifier.{lower};
ghost use Rattle.persist_store.specs.Entries.{entry_meant};
ghost use Rattle.stored_values.specs.StoredBodies.{entries_stored};
ghost use Rattle.daemon_entries.specs.LeftOut.{fits, names_left_out};

use crate::listing::with_entries;
use ads_base::{ListOf, NoMemory, Octets};
use persist_store::{Entries, StoredEntry};
use std::alloc::Global;

/// The names of the entries of a body that fit none of another body: that has no entry with the same port, name (ASCII case
/// aside), form and number of bytes. Bytes that are no body text have no entries.
pub fn unfit_names(alloc: Global, body: &[u8], served: &[u8]) -> Result<ListOf<Octets>, NoMemory>
    ensures { IfOk result (λ names. names ≡ names_left_out (entries_stored (Some served.now)) (entries_stored (Some body.now))) }
{
    let kept = match with_entries(Vec::new(alloc), served) {
        Ok(kept) => kept,
        Err(e) => return Err(e),
    };
    left_out(alloc, body, kept.as_slice())
}

/// The names of the entries of a body that fit none of these entries.
pub fn left_out(
    alloc: Global,
    body: &[u8],
    kept: &[StoredEntry<'_>],
) -> Result<ListOf<Octets>, NoMemory>
    ensures { IfOk result (λ names. names ≡ names_left_out (map entry_meant kept.now) (entries_stored (Some body.now))) }
{
    match Entries::read(body) {
        Some(entries) => left_out_of(alloc, entries, kept),
        None => Ok(ListOf::new(alloc)),
    }
}

// Both mostly have the same order, so the place behind the one that fitted last is looked at first.
fn left_out_of(
    alloc: Global,
    entries: Entries<'_>,
    kept: &[StoredEntry<'_>],
) -> Result<ListOf<Octets>, NoMemory>
    ensures { IfOk result (λ names. names ≡ names_left_out (map entry_meant kept.now) entries.entry) }
{
    let mut left = entries;
    let mut names = ListOf::new(alloc);
    let mut at = 0usize;
    while let Some(entry) = left.next() {
        match place_of(kept, at, &entry) {
            Some(place) => at = place.saturating_add(1),
            None => names.push(alloc, Octets::copy_of(alloc, entry.name)?)?,
        }
    }
    Ok(names)
}

// The place of one that an entry fits: this place, or the first one.
fn place_of(kept: &[StoredEntry<'_>], at: usize, entry: &StoredEntry<'_>) -> Option<usize>
    ensures { is_some result ≡ list_any (fits (entry_meant entry.now)) (map entry_meant kept.now) }
{
    if fits_at(kept, at, entry) {
        return Some(at);
    }
    first_place(kept, entry)
}

// Whether an entry fits the one at a place.
fn fits_at(kept: &[StoredEntry<'_>], at: usize, entry: &StoredEntry<'_>) -> bool
    ensures { result ≡ true → list_any (fits (entry_meant entry.now)) (map entry_meant kept.now) ≡ true }
{
    if at < kept.len() {
        fits(entry, &kept[at])
    } else {
        false
    }
}

fn first_place(kept: &[StoredEntry<'_>], entry: &StoredEntry<'_>) -> Option<usize>
    ensures { is_some result ≡ list_any (fits (entry_meant entry.now)) (map entry_meant kept.now) }
{
    let mut place = 0usize;
    for one in kept {
        if fits(entry, one) {
            return Some(place);
        }
        place = place.saturating_add(1);
    }
    None
}

// Whether the symbol of one takes the bytes of an entry.
fn fits(entry: &StoredEntry<'_>, one: &StoredEntry<'_>) -> bool
    ensures { result ≡ fits (entry_meant entry.now) (entry_meant one.now) }
{
    entry.port == one.port
        && is_same_name(entry.name, one.name)
        && entry.form == one.form
        && entry.bytes.len() == one.bytes.len()
}

// Whether two names are the same, ASCII case aside.
fn is_same_name(a: &[u8], b: &[u8]) -> bool
    ensures { result ≡ bytes_eq (lower a.now) (lower b.now) }
{
    a.eq_ignore_ascii_case(b)
}

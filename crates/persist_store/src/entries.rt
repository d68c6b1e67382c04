//! The entries of a body, given one by one.

ghost use Rattle.std.specs.Prelude.{◌≡◌, ◌↔◌, ◌<◌, ◌-◌, ◌∷◌, [], length, is_some, Some, IsNone, IsSome, IfSome, IfNone, unwrap_or, option_map};
ghost use Rattle.spec_store.specs.BodyText.{split_at, entry_of, entries_in, entries_of};
ghost use Rattle.persist_store.specs.Entries.{entry_meant, split_meant, entry_read};

use crate::StoredEntry;
use ads_base::{get16, get32, get64};
use std::marker::Model;

/// The entries of a body that are left; contracts see the list.
#[derive(Drop)]
pub struct Entries<'a> {
    rest: &'a [u8],
    left: u32,
}

impl<'a> Model for Entries<'a> {
    ghost use Rattle.std.specs.Prelude.{List, [], IsSome, unwrap_or};
    ghost use Rattle.spec_store.specs.BodyText.{StoredEntry, entries_in};

    ghost Value = { List StoredEntry };

    ghost view = { λ e. unwrap_or (entries_in e.left e.rest.now) [] };

    ghost invariant = { λ e. IsSome (entries_in e.left e.rest.now) };
}

impl<'a> Entries<'a> {
    /// The entries of a body text. `None` where the bytes are no body text: a number of entries of 4 bytes, and just these
    /// entries, whatever they hold.
    #[tactic(auto, unfolding(spec_store::specs::BodyText::entries_of))]
    pub fn read(body: &'a [u8]) -> Option<Entries<'a>>
        ensures { result ≡ entries_of body.now }
    {
        let (count, rest) = split(body, 4)?;
        let left = get32(count, 0);
        if are_entries(rest, left) {
            Some(Entries { rest, left })
        } else {
            None
        }
    }

    /// The next entry. `None` after the last.
    pub fn next(&mut self) -> Option<StoredEntry<'a>>
        ensures next { IfSome result (λ e. self.old ≡ entry_meant e ∷ self.new) }
        ensures none { IsNone result ↔ (self.old ≡ []) }
        ensures end { IfNone result (self.new ≡ []) }
    {
        match step(self.rest, self.left) {
            None => None,
            Some((entry, rest)) => {
                self.rest = rest;
                self.left -= 1;
                Some(entry)
            }
        }
    }
}

// The first of so many entries, and what stands behind it.
fn step(bytes: &[u8], count: u32) -> Option<(StoredEntry<'_>, &[u8])>
    requires { IsSome (entries_in count bytes.now) }
    ensures none { IfNone result (entries_in count bytes.now ≡ Some []) }
    ensures more { IfSome result (λ x. 0 < count) }
    ensures left { IfSome result (λ (e, rest). IsSome (entries_in (count - 1) rest.now)) }
    ensures next { IfSome result (λ (e, rest). unwrap_or (entries_in count bytes.now) []
        ≡ entry_meant e ∷ unwrap_or (entries_in (count - 1) rest.now) []) }
{
    if count == 0 {
        return None;
    }
    first_entry(bytes)
}

// Whether the bytes are so many entries and nothing else.
#[tactic(auto, using(crate::proofs::EntryLemmas::still_entries, crate::proofs::EntryLemmas::no_entries, crate::proofs::EntryLemmas::none_left))]
fn are_entries(bytes: &[u8], count: u32) -> bool
    ensures { result ≡ is_some (entries_in count bytes.now) }
{
    let mut rest = bytes;
    let mut left = count;
    while left != 0 {
        match first_entry(rest) {
            None => return false,
            Some((_, after)) => rest = after,
        }
        left -= 1;
    }
    rest.is_empty()
}

// The entry in front, and what stands behind it.
#[tactic(auto, unfolding(spec_store::specs::BodyText::entry_of))]
fn first_entry(bytes: &[u8]) -> Option<(StoredEntry<'_>, &[u8])>
    ensures { option_map (λ (e, rest). entry_read (entry_meant e) rest.now) result ≡ entry_of bytes.now }
{
    let (head, rest) = split(bytes, 4)?;
    let (name, rest) = split(rest, get16(head, 2) as usize)?;
    let (form_length, rest) = split(rest, 8)?;
    let (form, rest) = split(rest, get64(form_length, 0) as usize)?;
    let (size, rest) = split(rest, 4)?;
    let (bytes, rest) = split(rest, get32(size, 0) as usize)?;
    let entry = StoredEntry {
        port: get16(head, 0),
        name,
        form,
        bytes,
    };
    Some((entry, rest))
}

// The first so many bytes, and what stands behind them.
fn split(bytes: &[u8], n: usize) -> Option<(&[u8], &[u8])>
    ensures parts { option_map (λ (front, behind). split_meant front.now behind.now) result ≡ split_at n bytes.now }
    ensures front { IfSome result (λ parts. length parts.0.now ≡ n) }
{
    if bytes.len() < n {
        return None;
    }
    Some((&bytes[..n], &bytes[n..]))
}

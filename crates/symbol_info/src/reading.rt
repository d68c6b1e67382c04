//! Symbol entries are read.

ghost use Rattle.std.specs.Prelude.{◌≡◌, ◌+◌, ◌≤◌, List, ℕ, length, take, drop, IsNone, IfSome, ◌↔◌, MatchOption, option_map, IsTrue, is_some};
ghost use Rattle.spec_formats.specs.Numbers.{number16, number32};
ghost use Rattle.spec_formats.specs.SymbolEntry.{BeginsWithEntry, entry_of, ends_in_nul, after_text};
ghost use Rattle.symbol_info.specs.Entry.{BeginsWithNone, entry_meant};

use crate::Entry;
use ads_base::{get16, get32};

/// The first entry, and the bytes after it. Further bytes up to the entry length are skipped. `None` where no entry
/// stands in front: its length does not cover its texts or goes past the bytes, or a text does not end in NUL.
pub fn read_entry(bytes: &[u8]) -> Option<(Entry<'_>, &[u8])>
    ensures text { IfSome result (λ (e, rest). BeginsWithEntry bytes.now (entry_meant e) rest.now) }
    ensures none { IsNone result ↔ BeginsWithNone bytes.now }
    ensures read { option_map (λ (e, rest). (entry_meant e, rest.now)) result ≡ entry_of bytes.now }
{
    entry_in(bytes)
}

fn entry_in(bytes: &[u8]) -> Option<(Entry<'_>, &[u8])>
    ensures { option_map (λ (e, rest). (entry_meant e, rest.now)) result ≡ entry_of bytes.now }
{
    if bytes.len() < 30 {
        return None;
    }
    let len = get32(bytes, 0) as usize;
    let name_len = get16(bytes, 24) as usize;
    let type_len = get16(bytes, 26) as usize;
    let comment_len = get16(bytes, 28) as usize;
    if len < 33 + name_len + type_len + comment_len || bytes.len() < len {
        return None;
    }
    let (name, types) = text_in(&bytes[30..], name_len)?;
    let (kind, comments) = text_in(types, type_len)?;
    let (comment, _) = text_in(comments, comment_len)?;
    let entry = Entry {
        group: get32(bytes, 4),
        offset: get32(bytes, 8),
        size: get32(bytes, 12),
        type_id: get32(bytes, 16),
        flags: get32(bytes, 20),
        name,
        kind,
        comment,
    };
    Some((entry, &bytes[len..]))
}

// A text of this length that ends in NUL, and what follows.
fn text_in(bytes: &[u8], len: usize) -> Option<(&[u8], &[u8])>
    requires { len + 1 ≤ length bytes.now }
    ensures nul { IsTrue (is_some result) ↔ IsTrue (ends_in_nul len bytes.now) }
    ensures text { IfSome result (λ (text, _). text.now ≡ take len bytes.now) }
    ensures rest { IfSome result (λ (_, rest). rest.now ≡ after_text len bytes.now) }
{
    if bytes[len] == 0 {
        Some((&bytes[..len], &bytes[len + 1..]))
    } else {
        None
    }
}

//! Type entries are read.

ghost use Rattle.std.specs.Prelude.{◌≡◌, ◌+◌, ◌≤◌, IsNone, IfSome, ◌↔◌, option_map};
ghost use Rattle.type_upload.specs.Entry.{IsRead, BeginsWithNone, entry_meant};
ghost use Rattle.type_upload.specs.Places.{HasPlaces, ReadsAs};
ghost use Rattle.spec_formats.specs.TypeEntryReading.{type_entry_of};

use crate::TypeEntry;
use crate::places::{Places, places_in};
use crate::skipping::after_subs;
use ads_base::{get16, get32};

/// The first entry, and the bytes after it. Version and hashes may be anything. What stands behind the last sub entry
/// up to the entry length is skipped, and in a sub entry what stands behind its dimensions. `None` where no entry
/// stands in front: a length does not cover what it counts or goes past the bytes, a text does not end in NUL, or a
/// sub entry has sub items.
pub fn read_type(bytes: &[u8]) -> Option<(TypeEntry<'_>, &[u8])>
    ensures text { IfSome result (λ (e, rest). IsRead bytes.now e rest.now) }
    ensures none { IsNone result ↔ BeginsWithNone bytes.now }
    ensures entry { option_map (λ (e, rest). (entry_meant e, rest.now)) result ≡ type_entry_of bytes.now }
{
    let places = places_in(bytes)?;
    let behind = &bytes[places.fields_end..places.len];
    let after = after_subs(get16(bytes, 40), behind)?;
    let sub_bytes = &behind[..behind.len() - after.len()];
    Some((entry_at(bytes, places, sub_bytes), &bytes[places.len..]))
}

fn entry_at<'a>(bytes: &'a [u8], places: Places, sub_bytes: &'a [u8]) -> TypeEntry<'a>
    requires { HasPlaces bytes.now places }
    ensures { ReadsAs bytes.now sub_bytes.now result }
{
    TypeEntry {
        size: get32(bytes, 16),
        offset: get32(bytes, 20),
        type_id: get32(bytes, 24),
        flags: get32(bytes, 28),
        name: &bytes[42..places.name_end],
        kind: &bytes[places.name_end + 1..places.kind_end],
        comment: &bytes[places.kind_end + 1..places.comment_end],
        dims: &bytes[places.comment_end + 1..places.fields_end],
        subs: get16(bytes, 40),
        sub_bytes,
    }
}

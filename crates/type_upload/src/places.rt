//! Where the parts of an entry stand.

ghost use Rattle.std.specs.Prelude.{◌≡◌, IfSome, is_some};
ghost use Rattle.type_upload.specs.Places.{HasPlaces};
ghost use Rattle.spec_formats.specs.TypeEntryReading.{is_fields};

use ads_base::{get16, get32};

// Where the texts, the dimensions and the entry end. Each text begins behind the NUL before it.
#[derive(Clone, Copy)]
pub(crate) struct Places {
    pub name_end: usize,
    pub kind_end: usize,
    pub comment_end: usize,
    pub fields_end: usize,
    pub len: usize,
}

// None where the entry's length does not cover its fields or goes past the bytes, or a text does not end in NUL.
pub(crate) fn places_in(bytes: &[u8]) -> Option<Places>
    ensures tested { is_some result ≡ is_fields bytes.now }
    ensures places { IfSome result (HasPlaces bytes.now) }
{
    if bytes.len() < 42 {
        return None;
    }
    let len = get32(bytes, 0) as usize;
    let name_end = 42 + get16(bytes, 32) as usize;
    let kind_end = name_end + 1 + get16(bytes, 34) as usize;
    let comment_end = kind_end + 1 + get16(bytes, 36) as usize;
    let fields_end = comment_end + 1 + 8 * get16(bytes, 38) as usize;
    if len < fields_end || bytes.len() < len {
        return None;
    }
    if bytes[name_end] != 0 {
        return None;
    }
    if bytes[kind_end] != 0 {
        return None;
    }
    if bytes[comment_end] != 0 {
        return None;
    }
    Some(Places {
        name_end,
        kind_end,
        comment_end,
        fields_end,
        len,
    })
}

//! Sub entries are walked over to see that they are whole.

ghost use Rattle.std.specs.Prelude.{◌≡◌, option_map};
ghost use Rattle.spec_formats.specs.TypeEntryReading.{after_sub_in, after_subs_in};

use crate::places::places_in;
use ads_base::get16;

// What stands behind the first sub entry.
fn after_sub(bytes: &[u8]) -> Option<&[u8]>
    ensures { option_map (λ r. r.now) result ≡ after_sub_in bytes.now }
{
    let places = places_in(bytes)?;
    if get16(bytes, 40) != 0 {
        return None;
    }
    Some(&bytes[places.len..])
}

// What stands behind so many sub entries.
pub(crate) fn after_subs(count: u16, bytes: &[u8]) -> Option<&[u8]>
    ensures { option_map (λ r. r.now) result ≡ after_subs_in count bytes.now }
{
    let mut rest = bytes;
    for _ in 0..count {
        let after = after_sub(rest)?;
        rest = after;
    }
    Some(rest)
}

//! Lengths of payloads: fields alone, or fields with data whose length stands in them.

ghost use Rattle.std.specs.Prelude.{◌≡◌, ◌≢◌, ◌+◌, ◌≤◌, length, drop, IsTrue, ◌↔◌, MatchOption};
ghost use Rattle.spec_formats.specs.Numbers.{number32};

use ads_base::get32;

/// The data behind `fields` bytes of fields, whose length stands at `at`. `None` where the bytes have another length.
pub fn data_behind(bytes: &[u8], fields: usize, at: usize) -> Option<&[u8]>
    requires { at + 4 ≤ fields }
    ensures { MatchOption result (length bytes.now ≢ fields + number32 at bytes.now)
        (λ rest. (length bytes.now ≡ fields + number32 at bytes.now) × (rest.now ≡ drop fields bytes.now)) }
{
    if bytes.len() < fields {
        return None;
    }
    let data = &bytes[fields..];
    if data.len() == get32(bytes, at) as usize {
        Some(data)
    } else {
        None
    }
}

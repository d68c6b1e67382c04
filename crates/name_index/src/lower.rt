//! Texts in lower case.
ghost use Rattle.std.specs.Prelude.{◌≡◌, ◌≤◌, length, take, bytes_eq, IfOk};
ghost use Rattle.name_paths.specs.Identifier.{lower};

use ads_base::NoMemory;
use std::alloc::Global;

/// A copy of a text with its ASCII letters in lower case.
pub fn lower_copy(alloc: Global, text: &[u8]) -> Result<Vec<u8>, NoMemory>
    ensures { IfOk result (λ low. low.items ≡ lower text.now) }
{
    let mut low = text.to_vec(alloc)?;
    low.as_mut_slice().make_ascii_lowercase();
    Ok(low)
}

/// Writes a text in lower case at the beginning of a room.
pub fn put_lower(room: &mut [u8], text: &[u8])
    requires { length text.now ≤ length room.old }
    ensures low { take (length text.now) room.new ≡ lower text.now }
    ensures room { length room.new ≡ length room.old }
{
    let low = &mut room[..text.len()];
    low.copy_from_slice(text);
    low.make_ascii_lowercase();
}

/// Whether a text is this one in lower case.
pub fn is_lower_of(low: &[u8], text: &[u8]) -> bool
    ensures { result ≡ bytes_eq (lower text.now) low.now }
{
    if low.len() != text.len() {
        return false;
    }
    for (i, c) in text.iter().enumerate() {
        if c.to_ascii_lowercase() != low[i] {
            return false;
        }
    }
    true
}

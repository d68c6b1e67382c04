//! What the writes of a save are.

ghost use Rattle.std.specs.Prelude.{◌≡◌, option_map};
ghost use Rattle.store_file.specs.Writes.{body_in_write, is_opening};

use crate::slots::SECOND_SLOT;

/// The body that a write puts into a slot.
pub fn body_written(at: u64, bytes: &[u8]) -> Option<&[u8]>
    ensures { option_map (λ b. b.now) result ≡ body_in_write at bytes.now }
{
    if (at == 1 || at == SECOND_SLOT + 1) && bytes.len() >= 12 {
        Some(&bytes[12..])
    } else {
        None
    }
}

/// Whether a write opens the gate of a slot.
pub fn opens_gate(at: u64, bytes: &[u8]) -> bool
    ensures { result ≡ is_opening at bytes.now }
{
    (at == 0 || at == SECOND_SLOT) && bytes.len() == 1 && bytes[0] == 1
}

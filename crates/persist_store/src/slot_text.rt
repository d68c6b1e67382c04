//! A slot is read.

ghost use Rattle.std.specs.Prelude.{◌≡◌, ◌+◌, ◌≤◌, true, length, option_map};
ghost use Rattle.spec_store.specs.Slots.{slot_of, counts, body_length};
ghost use Rattle.persist_store.specs.Slots.{slot_meant};

use crate::Entries;
use ads_base::{get32, get64};

/// The greatest number of bytes of a body.
pub const MAX_BODY: usize = 1_048_576;

/// The number of bytes of a slot with the longest body.
pub const MAX_SLOT: usize = 1_048_589;

/// Where the second slot stands.
pub const SECOND_SLOT: u64 = 1_048_592;

/// A slot that counts.
///
/// | field | bytes |
/// |---|---|
/// | gate, 1 where the slot is open | 1 |
/// | sequence, length of the body | 8, 4 |
/// | body | as its length says |
#[derive(Clone, Copy)]
pub struct SlotText<'a> {
    pub sequence: u64,
    pub body: &'a [u8],
}

/// The slot at the front of these bytes, where it counts.
#[tactic(auto, unfolding(spec_store::specs::Slots::slot_of))]
pub fn read_slot(bytes: &[u8]) -> Option<SlotText<'_>>
    ensures { option_map slot_meant result ≡ slot_of bytes.now }
{
    if !slot_counts(bytes) {
        return None;
    }
    let len = get32(bytes, 9) as usize;
    Some(SlotText {
        sequence: get64(bytes, 1),
        body: &bytes[13..13 + len],
    })
}

// Whether the slot at the front of these bytes counts.
fn slot_counts(bytes: &[u8]) -> bool
    ensures counts { result ≡ counts bytes.now }
    ensures whole { result ≡ true → 13 + body_length bytes.now ≤ length bytes.now }
{
    if bytes.len() < 13 {
        return false;
    }
    let len = get32(bytes, 9) as usize;
    if bytes[0] != 1 || len > MAX_BODY || bytes.len() - 13 < len {
        return false;
    }
    Entries::read(&bytes[13..13 + len]).is_some()
}

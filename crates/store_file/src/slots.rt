//! The slots of a store's file: what is damaged in them, and the body that they stand for.

ghost use Rattle.std.specs.Prelude.{◌≡◌, ◌+◌, ◌≤◌, true, length, option_map};
ghost use Rattle.spec_store.specs.Slots.{Slot, slot_of, counts, body_length};
ghost use Rattle.store_file.specs.Damage.{body_of_slots, damage_in_slot};
ghost use Rattle.store_file.specs.SlotsLent.{slot_lent};

use ads_base::{get32, get64};
use persist_store::Entries;

/// The greatest number of bytes of a body.
pub(crate) const MAX_BODY: usize = 1_048_576;

/// Where the second slot stands.
pub(crate) const SECOND_SLOT: u64 = 1_048_592;

/// What is damaged in a slot.
#[derive(Clone, Copy, Debug, PartialEq, Eq)]
pub enum SlotDamage {
    /// Nothing: it counts, or its gate is closed or not in the file.
    Whole,
    /// Its gate is open, and it can't be read.
    Unreadable,
    /// Its gate is neither open nor closed.
    NoGate,
}

/// A slot that counts.
#[derive(Clone, Copy)]
pub(crate) struct SlotLent<'a> {
    pub(crate) sequence: u64,
    pub(crate) body: &'a [u8],
}

/// What is damaged in the slot at the front of these bytes.
pub fn damage_of(bytes: &[u8]) -> SlotDamage
    ensures { result ≡ damage_in_slot bytes.now }
{
    if bytes.is_empty() || bytes[0] == 0 {
        return SlotDamage::Whole;
    }
    if bytes[0] != 1 {
        return SlotDamage::NoGate;
    }
    if slot_counts(bytes) {
        SlotDamage::Whole
    } else {
        SlotDamage::Unreadable
    }
}

/// The body that two slots stand for, each at the front of its bytes.
pub fn standing_body<'a>(first: &'a [u8], second: &'a [u8]) -> Option<&'a [u8]>
    ensures { option_map (λ b. b.now) result ≡ body_of_slots first.now second.now }
{
    match (read_slot(first), read_slot(second)) {
        (None, None) => None,
        (Some(one), None) | (None, Some(one)) => Some(one.body),
        (Some(one), Some(other)) => {
            if other.sequence <= one.sequence {
                Some(one.body)
            } else {
                Some(other.body)
            }
        }
    }
}

// The slot at the front of these bytes, where it counts.
#[tactic(auto, unfolding(spec_store::specs::Slots::slot_of))]
fn read_slot(bytes: &[u8]) -> Option<SlotLent<'_>>
    ensures { option_map slot_lent result ≡ slot_of bytes.now }
{
    if !slot_counts(bytes) {
        return None;
    }
    let len = get32(bytes, 9) as usize;
    Some(SlotLent {
        sequence: get64(bytes, 1),
        body: &bytes[13..13 + len],
    })
}

// Whether the slot at the front of these bytes counts.
fn slot_counts(bytes: &[u8]) -> bool
    ensures counts { result ≡ counts bytes.now }
    ensures whole { result ≡ true → 13 + body_length bytes.now ≤ length bytes.now }
{
    if bytes.len() < 13 {
        return false;
    }
    let len = get32(bytes, 9) as usize;
    if bytes[0] != 1 || len > MAX_BODY || bytes.len() - 13 < len {
        return false;
    }
    Entries::read(&bytes[13..13 + len]).is_some()
}

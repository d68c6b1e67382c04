//! Why something of a store's file is not done.

use crate::file_kind::FileKind;
use crate::slots::SlotDamage;
use ads_base::NoMemory;
use std::alloc::{AllocError, Global};
use std::io;

/// Why something of a store's file is not done.
#[derive(Debug, Drop)]
pub enum StoreFault {
    /// Memory was wanting.
    Memory,
    /// Another process holds the lock of the file.
    Taken,
    /// What stands under the name is no regular file.
    NoFile(FileKind),
    /// The first slot or the second one is damaged.
    Damaged(SlotDamage, SlotDamage),
    /// The system refused a call.
    System(io::Error),
}

impl From<AllocError> for StoreFault {
    fn from(_error: AllocError) -> StoreFault {
        StoreFault::Memory
    }
}

impl From<NoMemory> for StoreFault {
    fn from(_error: NoMemory) -> StoreFault {
        StoreFault::Memory
    }
}

impl From<io::Error> for StoreFault {
    fn from(error: io::Error) -> StoreFault {
        StoreFault::System(error)
    }
}

impl StoreFault {
    /// What is wrong, and what would be right.
    pub fn sentence(&self, alloc: Global) -> Result<String, AllocError> {
        match self {
            StoreFault::Memory => String::from_str(alloc, "out of memory"),
            StoreFault::Taken => String::from_str(
                alloc,
                "another daemon keeps its values there; end it first, or name another store",
            ),
            StoreFault::NoFile(kind) => {
                let word = kind.word();
                format!(in alloc; "it is {word}: name a regular file, or one that is not there yet")
            }
            StoreFault::Damaged(first, second) => damage_sentence(alloc, *first, *second),
            StoreFault::System(error) => format!(in alloc; "{error}"),
        }
    }
}

fn damage_sentence(
    alloc: Global,
    first: SlotDamage,
    second: SlotDamage,
) -> Result<String, AllocError> {
    let what = damage_words(alloc, first, second)?;
    let what = what.as_str();
    format!(in alloc;
        "the store is damaged, {what}: put a copy in its place, or start with --store-damaged begin, which copies it and begins with what can be read"
    )
}

/// What is damaged, in words.
pub(crate) fn damage_words(
    alloc: Global,
    first: SlotDamage,
    second: SlotDamage,
) -> Result<String, AllocError> {
    match (slot_words(first), slot_words(second)) {
        (Some(one), Some(two)) => format!(in alloc;
            "its first slot {one}, and its second slot {two}"
        ),
        (Some(one), None) => format!(in alloc; "its first slot {one}"),
        (None, Some(two)) => format!(in alloc; "its second slot {two}"),
        (None, None) => String::from_str(alloc, "nothing of it"),
    }
}

fn slot_words(damage: SlotDamage) -> Option<&'static str> {
    match damage {
        SlotDamage::Whole => None,
        SlotDamage::Unreadable => Some("is marked as valid and can't be read"),
        SlotDamage::NoGate => Some("begins with a byte that is neither 0 nor 1"),
    }
}

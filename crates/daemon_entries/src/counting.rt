//! How many entries a body has.

ghost use Rattle.std.specs.Prelude.{◌≡◌, ◌≤◌, length, Some};
ghost use Rattle.stored_values.specs.StoredBodies.{entries_stored};

use persist_store::Entries;

/// How many entries a body has; 0 where the bytes are no body text.
pub fn count_in(body: &[u8]) -> u64 {
    match Entries::read(body) {
        Some(entries) => count_left(entries),
        None => 0,
    }
}

fn count_left(entries: Entries<'_>) -> u64 {
    let mut left = entries;
    let mut count = 0u64;
    while let Some(_entry) = left.next() {
        count = count.saturating_add(1);
    }
    count
}

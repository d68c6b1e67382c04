//! The list of handles that are not released, by rising number.

ghost use Rattle.std.specs.Prelude.{◌≡◌, ◌≢◌, ◌<◌, IfSome, MatchOption, All, AllPairs};
ghost use Rattle.sym_handles.specs.declared.entries.Entry.{Entry};
ghost use Rattle.sym_handles.specs.Records.{IsAt};

/// A handle, and the key of its record.
#[derive(Clone, Copy, Debug, PartialEq, Eq)]
pub(crate) struct Entry {
    pub(crate) handle: u32,
    pub(crate) key: usize,
}

/// Where a handle stands in the list: where no handle below it is released, at its number less 1.
pub(crate) fn position_of(entries: &[Entry], handle: u32) -> Option<usize>
    requires { AllPairs (λ (e f : Entry). e.handle < f.handle) entries.now }
    ensures { MatchOption result (All (λ (e : Entry). e.handle ≢ handle) entries.now)
        (IsAt entries.now handle) }
{
    if let Some(first) = tried(entries, handle, (handle as usize).saturating_sub(1)) {
        return Some(first);
    }
    halved(entries, handle)
}

// A place, where the handle stands there.
fn tried(entries: &[Entry], handle: u32, place: usize) -> Option<usize>
    ensures { IfSome result (IsAt entries.now handle) }
{
    if place < entries.len() && entries[place].handle == handle {
        Some(place)
    } else {
        None
    }
}

// Where a handle stands, by halving.
fn halved(entries: &[Entry], handle: u32) -> Option<usize>
    requires { AllPairs (λ (e f : Entry). e.handle < f.handle) entries.now }
    ensures { MatchOption result (All (λ (e : Entry). e.handle ≢ handle) entries.now)
        (IsAt entries.now handle) }
{
    let before = entries.partition_point(|e| e.handle < handle);
    if before < entries.len() && entries[before].handle == handle {
        Some(before)
    } else {
        None
    }
}

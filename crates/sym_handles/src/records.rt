//! Records of handles in a slab, and the list of their handles.

ghost use Rattle.std.specs.Prelude.{◌≡◌, ℕ, ◌+◌, ◌<◌, ◌≤◌, ◌++◌, ◌∷◌, [], map, All, Some, IsSome, OnOk, OnErr, length, slice_index_or, None};
ghost use Rattle.std.specs.Option.{ForSome};
ghost use Rattle.slab.specs.Slab.{Updates};
ghost use Rattle.symbol_table.specs.Moves.{IsInOldWorld};
ghost use Rattle.sym_handles.specs.declared.entries.Entry.{Entry};
ghost use Rattle.sym_handles.specs.declared.records.Record.{Record};
ghost use Rattle.sym_handles.specs.Kept.{HasPlaceInOldWorld, moved_handle, without};
ghost use Rattle.sym_handles.specs.Records.{record_in, moved_record, all_held, live_in, live_among, stored_count, IsIndex};

use crate::entries::Entry;
use ads_base::NoMemory;
use slab::Slab;
use symbol_table::{Moves, Place};

/// What is kept of a handle: its port, and its place, which an outdated one has not.
#[derive(Clone, Copy, Debug, PartialEq, Eq)]
pub(crate) struct Record {
    pub(crate) port: u16,
    pub(crate) place: Option<Place>,
}

/// A record more, and its handle behind all others.
pub(crate) fn add(
    records: &mut Slab<Record>,
    entries: &mut Vec<Entry>,
    handle: u32,
    granted: Record,
) -> Result<(), NoMemory>
    requires index { IsIndex records.old.slots entries.old.items }
    requires above { All (λ (e : Entry). e.handle < handle) entries.old.items }
    ensures index { OnOk result (IsIndex records.new.slots entries.new.items) }
    ensures numbered { OnOk result (All (λ (e : Entry). e.handle ≤ handle) entries.new.items) }
    ensures held { OnOk result (all_held records.new.slots entries.new.items
        ≡ all_held records.old.slots entries.old.items
        ++ record { number = handle; port = granted.port; place = granted.place } ∷ []) }
    ensures same_records { OnErr result (records.new.slots ≡ records.old.slots) }
    ensures same_entries { OnErr result (entries.new.items ≡ entries.old.items) }
{
    entries.reserve(1)?;
    let key = records.insert(granted)?;
    entries.push_reserved(Entry { handle, key });
    Ok(())
}

/// Takes a record out, and its handle: nothing of it stays.
pub(crate) fn take(records: &mut Slab<Record>, entries: &mut Vec<Entry>, place: usize) -> Record
    requires index { IsIndex records.old.slots entries.old.items }
    requires inside { place < length entries.old.items }
    ensures index { IsIndex records.new.slots entries.new.items }
    ensures numbered { (most : ℕ) → All (λ (e : Entry). e.handle ≤ most) entries.old.items
        → All (λ (e : Entry). e.handle ≤ most) entries.new.items }
    ensures held { (d : Entry) → all_held records.new.slots entries.new.items
        ≡ without (slice_index_or entries.old.items place d).handle
        (all_held records.old.slots entries.old.items) }
    ensures counted { live_among (all_held records.new.slots entries.new.items) + live_in result
        ≡ live_among (all_held records.old.slots entries.old.items) }
{
    let entry = entries.remove(place);
    records.remove(entry.key)
}

/// How many live handles a record stands for, one or none.
pub(crate) fn live_count(r: &Record) -> usize
    ensures { result ≡ live_in r.now }
{
    if r.place.is_some() { 1 } else { 0 }
}

/// Each record goes on with its place after the reload, if it has one. The answer counts those that have.
pub(crate) fn move_all(records: &mut Slab<Record>, entries: &[Entry], moves: &Moves) -> usize
    requires index { IsIndex records.old.slots entries.now }
    requires in_range { All (HasPlaceInOldWorld moves.now) (all_held records.old.slots entries.now) }
    ensures index { IsIndex records.new.slots entries.now }
    ensures held { all_held records.new.slots entries.now
        ≡ map (moved_handle moves.now) (all_held records.old.slots entries.now) }
    ensures live { result ≡ live_among (all_held records.new.slots entries.now) }
{
    let mut live = 0;
    for entry in entries {
        live += move_record(records, entry.key, moves);
    }
    live
}

// The record goes on with its place after the reload, if there is one. How many live handles it then stands for.
fn move_record(records: &mut Slab<Record>, key: usize, moves: &Moves) -> usize
    requires there { IsSome (slice_index_or records.old.slots key None) }
    requires in_range { ForSome (record_in records.old.slots key).place
        (IsInOldWorld moves.now (record_in records.old.slots key).port) }
    ensures moved { Updates records.old records.new key
        (Some (moved_record moves.now (record_in records.old.slots key))) }
    ensures no_more { stored_count records.new.slots ≡ stored_count records.old.slots }
    ensures live { result ≡ live_in (moved_record moves.now (record_in records.old.slots key)) }
{
    let Some(record) = records.get_mut(key) else {
        return 0;
    };
    record.place = moved_place_of(record, moves);
    live_count(record)
}

fn moved_place_of(kept: &Record, moves: &Moves) -> Option<Place>
    requires { ForSome kept.now.place (IsInOldWorld moves.now kept.now.port) }
    ensures { result ≡ (moved_record moves.now kept.now).place }
{
    match kept.place {
        None => None,
        Some(place) => moves.place(kept.port, place),
    }
}

//! Where a row goes.

ghost use Rattle.std.specs.Prelude.{◌≡◌, ◌≤◌, length, map, insert, OnOk, OnErr, IfOk, IfSome};
ghost use Rattle.spec_samples.specs.Laws.{AreCountedFrom};
ghost use Rattle.spec_samples.specs.Rows.{rows_after_put};
ghost use Rattle.sample_store.specs.Views.{row_kept};
ghost use Rattle.sample_store.specs.Places.{place_from};

use crate::Row;
use ads_base::{NoMemory, Octets};
use std::alloc::Global;

/// Puts a copy of a row at its place; nothing where its number is there.
pub fn put_row(alloc: Global, rows: &mut Vec<Row>, row: &Row) -> Result<(), NoMemory>
    requires counted { AreCountedFrom 1 (map row_kept rows.old.items) }
    ensures ok { OnOk result (map row_kept rows.new.items ≡ rows_after_put (map row_kept rows.old.items) (row_kept row.now)) }
    ensures no_memory { OnErr result (rows.new.items ≡ rows.old.items) }
{
    match place_of(rows.as_slice(), row.number) {
        None => Ok(()),
        Some(at) => {
            let copy = copy_of(alloc, row)?;
            insert_at(rows, at, copy)?;
            Ok(())
        }
    }
}

fn insert_at(rows: &mut Vec<Row>, at: usize, row: Row) -> Result<(), NoMemory>
    requires { at ≤ length rows.old.items }
    ensures ok { OnOk result (rows.new.items ≡ insert rows.old.items at row) }
    ensures no_memory { OnErr result (rows.new.items ≡ rows.old.items) }
{
    rows.insert(at, row)?;
    Ok(())
}

fn copy_of(alloc: Global, row: &Row) -> Result<Row, NoMemory>
    ensures { IfOk result (λ copy. row_kept copy ≡ row_kept row.now) }
{
    let name = Octets::copy_of(alloc, row.name.as_slice())?;
    let bytes = Octets::copy_of(alloc, row.bytes.as_slice())?;
    Ok(Row {
        number: row.number,
        name,
        time: row.time,
        bytes,
    })
}

// The place of a new number; none for one that is there.
fn place_of(rows: &[Row], number: u64) -> Option<usize>
    requires counted { AreCountedFrom 1 (map row_kept rows.now) }
    ensures is { result ≡ place_from 0 number rows.now }
    ensures within { IfSome result (λ at. at ≤ length rows.now) }
{
    // Nearly every row is a new one, and then its number is greater than how many there are.
    if (rows.len() as u64) < number {
        return Some(rows.len());
    }
    let mut at = 0;
    for row in rows {
        if row.number == number {
            return None;
        }
        if row.number > number {
            return Some(at);
        }
        at += 1;
    }
    Some(at)
}

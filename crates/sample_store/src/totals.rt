//! What is told of all rows of a name.

ghost use Rattle.std.specs.Prelude.{◌≡◌, ◌≤◌, None, length, map, option_map, IfOk};
ghost use Rattle.spec_samples.specs.Totals.{total_of};
ghost use Rattle.sample_store.specs.Views.{row_kept, total_told};
ghost use Rattle.sample_store.specs.Places.{count_from, last_from};

use crate::{Row, Total};
use ads_base::{NoMemory, Octets};
use std::alloc::Global;

/// The total of a name, where a row has it.
pub fn total_of(alloc: Global, rows: &[Row], name: &[u8]) -> Result<Option<Total>, NoMemory>
    ensures { IfOk result (λ total. option_map total_told total ≡ total_of name.now (map row_kept rows.now)) }
{
    match last_named(rows, name) {
        None => Ok(None),
        Some(last) => {
            let count = count_named(rows, name) as u64;
            let bytes = Octets::copy_of(alloc, last.bytes.as_slice())?;
            Ok(Some(Total {
                count,
                time: last.time,
                bytes,
            }))
        }
    }
}

// How many rows have a name.
fn count_named(rows: &[Row], name: &[u8]) -> usize
    ensures { result ≡ count_from 0 name.now rows.now }
{
    let mut count = 0;
    for row in rows {
        if row.name.as_slice() == name {
            count += 1;
        }
    }
    count
}

// The last row of a name.
fn last_named<'a>(rows: &'a [Row], name: &[u8]) -> Option<&'a Row>
    ensures { option_map (λ r. row_kept r.now) result ≡ last_from None name.now rows.now }
{
    let mut last = None;
    for row in rows {
        if row.name.as_slice() == name {
            last = Some(row);
        }
    }
    last
}

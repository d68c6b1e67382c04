//! Calls of a keeper, and whether they end as wanted.

ghost use Rattle.std.specs.Prelude.{◌<◌, ◌^◌};

use ads_base::Octets;
use sample_store::{Keeper, KeeperOpen, Kept, Row, Totalled};
use sqlite_samples::SqliteKeeper;
use std::alloc::Global;

/// Whether a file is opened and has so many rows.
pub fn opens(keeper: &mut SqliteKeeper, path: &str, rows: u64) -> bool {
    match keeper.open(path) {
        KeeperOpen::Ready(found) => found == rows,
        KeeperOpen::Failed | KeeperOpen::Memory => false,
    }
}

/// Whether a row is put.
pub fn puts(
    alloc: Global,
    keeper: &mut SqliteKeeper,
    number: u64,
    name: &str,
    time: u64,
    bytes: &[u8],
) -> bool
    requires some { 0 < number }
    requires most { number < 2 ^ 63 }
{
    let Ok(name) = Octets::copy_of(alloc, name.as_bytes()) else {
        return false;
    };
    let Ok(bytes) = Octets::copy_of(alloc, bytes) else {
        return false;
    };
    let row = Row {
        number,
        name,
        time,
        bytes,
    };
    matches!(keeper.put(&row), Kept::Done)
}

/// Whether so many rows of a name and of one moment are put, numbered from a number on; the value of each is its number.
pub fn puts_many(
    alloc: Global,
    keeper: &mut SqliteKeeper,
    first: u64,
    count: u64,
    name: &str,
) -> bool
    requires some { 0 < first }
    requires first { first < 2 ^ 32 }
    requires count { count < 2 ^ 32 }
{
    for k in 0..count {
        let number = first + k;
        if !puts(alloc, keeper, number, name, 400_000, &number.to_le_bytes()) {
            return false;
        }
    }
    true
}

/// Whether what was put is brought to where it stays.
pub fn settles(keeper: &mut SqliteKeeper) -> bool {
    matches!(keeper.settle(), Kept::Done)
}

/// Whether this is told of a name: how many samples, and the moment and the bytes of the one of the greatest number.
pub fn totals(keeper: &mut SqliteKeeper, name: &str, count: u64, time: u64, bytes: &[u8]) -> bool {
    match keeper.total(name.as_bytes()) {
        Totalled::Found(total) => {
            total.count == count && total.time == time && total.bytes.as_slice() == bytes
        }
        Totalled::Nothing | Totalled::Failed | Totalled::Memory => false,
    }
}

/// Whether no sample has a name.
pub fn has_none(keeper: &mut SqliteKeeper, name: &str) -> bool {
    matches!(keeper.total(name.as_bytes()), Totalled::Nothing)
}

/// Whether a total fails, and is counted as the first call that did.
pub fn fails_first(keeper: &mut SqliteKeeper, name: &str) -> bool {
    let before = keeper.faults();
    let failed = matches!(keeper.total(name.as_bytes()), Totalled::Failed);
    failed && before == 0 && keeper.faults() == 1
}

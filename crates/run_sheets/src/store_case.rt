//! The disk and the keeper of a run, and what must be left of them.

use crate::Fault;
use crate::wire_case::{bytes_of, number_of, put_digits};
use ads_base::{Calls, NoMemory, Octets};
use persist_store::Stop;
use sample_store::{MapKeeper, Row};
use std::alloc::Global;
use std::mem;

/// The file of a disk in memory, which of its calls fail and in which the machine stops, and the file that must be left;
/// which calls of a keeper in memory fail, and the rows that it must have.
#[derive(Drop)]
pub struct StoreCase {
    pub file: Octets,
    pub failing_disk: Calls,
    pub stop: Option<Stop>,
    /// The file as it is, where no line says what must be left.
    pub left: Option<Octets>,
    pub failing_keeper: Calls,
    pub rows: Octets,
}

impl StoreCase {
    /// An empty file that stays so, and a keeper without rows.
    pub fn new(alloc: Global) -> StoreCase {
        StoreCase {
            file: Octets::new(alloc),
            failing_disk: Calls::new(alloc),
            stop: None,
            left: None,
            failing_keeper: Calls::new(alloc),
            rows: Octets::new(alloc),
        }
    }

    /// Takes out the file that must be left.
    pub fn take_left(&mut self, alloc: Global) -> Result<Octets, NoMemory> {
        match mem::replace(&mut self.left, None) {
            Some(left) => Ok(left),
            None => Octets::copy_of(alloc, self.file.as_slice()),
        }
    }
}

/// Reads a line on the disk or the keeper: the file, a stop, the file that must be left, or a call that fails.
pub fn take_store_line(
    alloc: Global,
    stores: &mut StoreCase,
    key: &str,
    rest: &str,
) -> Result<(), Fault> {
    match key {
        "disk" => take_file(alloc, stores, rest),
        "left" => take_wanted_file(alloc, stores, rest),
        "stop" => take_stop(alloc, stores, rest),
        "fail-disk" => take_call(alloc, &mut stores.failing_disk, rest),
        _ => take_call(alloc, &mut stores.failing_keeper, rest),
    }
}

fn take_file(alloc: Global, stores: &mut StoreCase, rest: &str) -> Result<(), Fault> {
    let file = file_of(alloc, rest)?;
    stores.file = file;
    Ok(())
}

fn take_wanted_file(alloc: Global, stores: &mut StoreCase, rest: &str) -> Result<(), Fault> {
    let left = file_of(alloc, rest)?;
    stores.left = Some(left);
    Ok(())
}

fn take_stop(alloc: Global, stores: &mut StoreCase, rest: &str) -> Result<(), Fault> {
    let stop = stop_of(alloc, rest)?;
    stores.stop = Some(stop);
    Ok(())
}

fn take_call(alloc: Global, calls: &mut Calls, rest: &str) -> Result<(), Fault> {
    let number = number_of(rest)?;
    calls.push(alloc, number)?;
    Ok(())
}

// `0107 z12`: bytes in hexadecimal, and so many zeros.
fn file_of(alloc: Global, text: &str) -> Result<Octets, Fault> {
    let mut file = Octets::new(alloc);
    for part in text.split_ascii_whitespace() {
        put_part(alloc, &mut file, part)?;
    }
    Ok(file)
}

fn put_part(alloc: Global, file: &mut Octets, part: &str) -> Result<(), Fault> {
    match part.strip_prefix('z') {
        Some(count) => {
            let count = number_of(count)?;
            put_zeros(alloc, file, count)?;
            Ok(())
        }
        None => put_digits(alloc, file, part),
    }
}

fn put_zeros(alloc: Global, file: &mut Octets, count: u64) -> Result<(), NoMemory> {
    for _ in 0..count {
        file.push(alloc, 0)?;
    }
    Ok(())
}

// `3 07`: the number of a call, and the bytes that stand at its place afterwards.
fn stop_of(alloc: Global, rest: &str) -> Result<Stop, Fault> {
    let (call, digits) = rest.split_once(' ').unwrap_or((rest, ""));
    let call = number_of(call)?;
    let tail = bytes_of(alloc, digits)?;
    Ok(Stop { call, tail })
}

/// A line each row of a keeper, by rising number.
pub fn rows_of(alloc: Global, keeper: &MapKeeper) -> Result<Octets, Fault> {
    let mut text = Octets::new(alloc);
    for number in 1..=u64::MAX {
        match keeper.row(number) {
            Some(row) => put_row(alloc, &mut text, row)?,
            None => break,
        }
    }
    Ok(text)
}

fn put_row(alloc: Global, text: &mut Octets, row: &Row) -> Result<(), Fault> {
    let Row {
        number,
        name,
        time,
        bytes,
    } = row;
    let head = format!(in alloc; "{number} ")?;
    text.put(alloc, head.as_bytes())?;
    text.put(alloc, name.as_slice())?;
    let digits = hex::encode(alloc, bytes.as_slice())?;
    let tail = format!(in alloc; " {time} x{digits}\n")?;
    text.put(alloc, tail.as_bytes())?;
    Ok(())
}

//! The numbers of samples.

use ads_base::ListOf;
use daemon_signals::Recorded;
use sqlite::{Error, Row};
use std::alloc::Global;

/// How many samples are played at most.
const MOST: usize = 1_048_576;

/// The numbers of rows whose first column is the bytes of a sample.
pub(crate) fn numbers_of(alloc: Global, rows: &[Row]) -> Recorded {
    if rows.is_empty() {
        return Recorded::NoName;
    }
    if rows.len() > MOST {
        return Recorded::TooMany;
    }
    let mut numbers = ListOf::new(alloc);
    for row in rows {
        match number_of(row) {
            Ok(Some(number)) => {
                if numbers.push(alloc, number).is_err() {
                    return Recorded::Memory;
                }
            }
            Ok(None) => return Recorded::Size,
            Err(_) => return Recorded::Failed,
        }
    }
    Recorded::Numbers(numbers)
}

fn number_of(row: &Row) -> Result<Option<u64>, Error> {
    let bytes: Vec<u8> = row.get(0)?;
    Ok(little_endian(bytes.as_slice()))
}

// The number of one byte to eight, the low one first.
fn little_endian(bytes: &[u8]) -> Option<u64> {
    if bytes.is_empty() || bytes.len() > 8 {
        return None;
    }
    let mut word = [0u8; 8];
    word[..bytes.len()].copy_from_slice(bytes);
    Some(u64::from_le_bytes(word))
}

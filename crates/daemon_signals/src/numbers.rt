//! Numbers in a text, one a line.

ghost use Rattle.std.specs.Prelude.{◌≤◌, length};

use ads_base::{ListOf, NoMemory, read_decimal};
use std::alloc::Global;

/// The numbers of a text, in order, or the number of its first line, counted from 1, that is no number. A line is a decimal
/// number from 0 to 18,446,744,073,709,551,615, or a minus sign and one from 0 to 9,223,372,036,854,775,808, which stands
/// for its two's complement. A carriage return in front of a line feed is left out, and the last line may lack its line feed.
pub fn numbers_in(alloc: Global, text: &[u8]) -> Result<Result<ListOf<u64>, u64>, NoMemory> {
    let mut values = ListOf::new(alloc);
    let mut line = 1u64;
    let mut start = 0usize;
    for end in 0..text.len() {
        if text[end] == b'\n' {
            if !put_number(alloc, &text[start..end], &mut values)? {
                return Ok(Err(line));
            }
            line = line.saturating_add(1);
            start = end + 1;
        }
    }
    if start < text.len() && !put_number(alloc, &text[start..], &mut values)? {
        return Ok(Err(line));
    }
    Ok(Ok(values))
}

// One more number; false where a line is none.
fn put_number(alloc: Global, line: &[u8], values: &mut ListOf<u64>) -> Result<bool, NoMemory> {
    match number_of(without_return(line)) {
        Some(number) => {
            values.push(alloc, number)?;
            Ok(true)
        }
        None => Ok(false),
    }
}

// A line without the carriage return at its end.
fn without_return(line: &[u8]) -> &[u8] {
    match line.strip_suffix(b"\r") {
        Some(line) => line,
        None => line,
    }
}

fn number_of(line: &[u8]) -> Option<u64> {
    match line.strip_prefix(b"-") {
        Some(digits) => negative(read_decimal(digits)?),
        None => read_decimal(line),
    }
}

// The two's complement of a number of at most 2^63.
fn negative(number: u64) -> Option<u64> {
    if number <= 9_223_372_036_854_775_808 {
        return Some(number.wrapping_neg());
    }
    None
}

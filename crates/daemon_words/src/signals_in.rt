//! The tables `[[signal]]`, read.

use crate::signal_table::{RampTable, RecordingTable, SignalTable, SquareTable, ValueList};
use ads_base::{ListOf, NoMemory};
use cli_words::Text;
use std::alloc::Global;
use toml::{Table, Value};

/// The greatest number of values of a signal.
const MOST: usize = 1_048_576;

/// What a table says that a signal is; None where it is off the form.
pub(crate) fn signal_in(alloc: Global, value: &Value) -> Result<Option<SignalTable>, NoMemory> {
    match value.as_table() {
        Some(table) if table.len() == 1 => lone(alloc, table),
        Some(table) if table.len() == 2 => pair(alloc, table),
        _ => Ok(None),
    }
}

// A table of one key.
fn lone(alloc: Global, table: &Table) -> Result<Option<SignalTable>, NoMemory> {
    if let Some(value) = table.get("square") {
        return Ok(square_in(value));
    }
    if let Some(value) = table.get("values") {
        return values_in(alloc, value);
    }
    match table.get("file") {
        Some(value) => file_in(alloc, value),
        None => Ok(None),
    }
}

// A table of two keys.
fn pair(alloc: Global, table: &Table) -> Result<Option<SignalTable>, NoMemory> {
    if let (Some(step), Some(period)) = (table.get("ramp"), table.get("period")) {
        return Ok(ramp_in(step, period));
    }
    match (table.get("recording"), table.get("name")) {
        (Some(file), Some(name)) => recording_in(alloc, file, name),
        _ => Ok(None),
    }
}

fn ramp_in(step: &Value, period: &Value) -> Option<SignalTable> {
    let step = u32::try_from(step.as_integer()?).ok()?;
    let period = u32::try_from(period.as_integer()?).ok()?;
    if period == 0 || period as usize > MOST {
        return None;
    }
    Some(SignalTable::Ramp(RampTable { step, period }))
}

fn square_in(value: &Value) -> Option<SignalTable> {
    match value.as_array()?.as_slice() {
        [low, high, ticks] => square_of(
            low.as_integer()?,
            high.as_integer()?,
            u32::try_from(ticks.as_integer()?).ok()?,
        ),
        _ => None,
    }
}

fn square_of(low: i64, high: i64, ticks: u32) -> Option<SignalTable> {
    if ticks == 0 || ticks as usize > MOST / 2 {
        return None;
    }
    Some(SignalTable::Square(SquareTable {
        low: low.cast_unsigned(),
        high: high.cast_unsigned(),
        ticks,
    }))
}

fn values_in(alloc: Global, value: &Value) -> Result<Option<SignalTable>, NoMemory> {
    let Some(items) = value.as_array() else {
        return Ok(None);
    };
    if items.len() > MOST {
        return Ok(None);
    }
    match numbers_in(alloc, items.as_slice())? {
        Some(values) if values.len() != 0 => Ok(Some(SignalTable::Values(ValueList { values }))),
        _ => Ok(None),
    }
}

// The numbers of a list; a negative one by its two's complement.
fn numbers_in(alloc: Global, items: &[Value]) -> Result<Option<ListOf<u64>>, NoMemory> {
    let mut values = ListOf::new(alloc);
    for item in items {
        match item.as_integer() {
            Some(number) => values.push(alloc, number.cast_unsigned())?,
            None => return Ok(None),
        }
    }
    Ok(Some(values))
}

fn file_in(alloc: Global, value: &Value) -> Result<Option<SignalTable>, NoMemory> {
    match name_in(alloc, value)? {
        Some(name) => Ok(Some(SignalTable::File(name))),
        None => Ok(None),
    }
}

fn recording_in(
    alloc: Global,
    file: &Value,
    name: &Value,
) -> Result<Option<SignalTable>, NoMemory> {
    match (name_in(alloc, file)?, name_in(alloc, name)?) {
        (Some(file), Some(name)) => Ok(Some(SignalTable::Recording(RecordingTable { file, name }))),
        _ => Ok(None),
    }
}

// A text that is not empty.
fn name_in(alloc: Global, value: &Value) -> Result<Option<Text>, NoMemory> {
    match value.as_str() {
        Some(text) if !text.is_empty() => Ok(Some(Text::copy_of(alloc, text)?)),
        _ => Ok(None),
    }
}

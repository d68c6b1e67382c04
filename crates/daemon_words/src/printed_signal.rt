//! A signal, printed.

use crate::{RampTable, RecordingTable, SignalTable, SquareTable};
use ads_base::{NoMemory, Octets};
use std::alloc::Global;

/// What the signal with this number is, as a line.
pub fn signal_text(alloc: Global, number: u32, signal: &SignalTable) -> Result<Octets, NoMemory> {
    match signal {
        SignalTable::Ramp(ramp) => ramp_text(alloc, number, ramp),
        SignalTable::Square(square) => square_text(alloc, number, square),
        SignalTable::Values(list) => values_text(alloc, number, list.values.len()),
        SignalTable::File(name) => file_text(alloc, number, name.as_str()),
        SignalTable::Recording(recording) => recording_text(alloc, number, recording),
    }
}

fn ramp_text(alloc: Global, number: u32, ramp: &RampTable) -> Result<Octets, NoMemory> {
    let (step, period) = (ramp.step, ramp.period);
    let text = format!(in alloc; "signal {number} ramp {step}, period {period}\n")?;
    Octets::copy_of(alloc, text.as_bytes())
}

fn square_text(alloc: Global, number: u32, square: &SquareTable) -> Result<Octets, NoMemory> {
    let (low, high) = (square.low.cast_signed(), square.high.cast_signed());
    let ticks = square.ticks;
    let text = format!(in alloc; "signal {number} square {low}, {high}, each {ticks} ticks\n")?;
    Octets::copy_of(alloc, text.as_bytes())
}

fn values_text(alloc: Global, number: u32, count: usize) -> Result<Octets, NoMemory> {
    let text = format!(in alloc; "signal {number} values, {count} of them\n")?;
    Octets::copy_of(alloc, text.as_bytes())
}

fn file_text(alloc: Global, number: u32, name: &str) -> Result<Octets, NoMemory> {
    let text = format!(in alloc; "signal {number} the numbers of the file {name}\n")?;
    Octets::copy_of(alloc, text.as_bytes())
}

fn recording_text(
    alloc: Global,
    number: u32,
    recording: &RecordingTable,
) -> Result<Octets, NoMemory> {
    let (file, name) = (recording.file.as_str(), recording.name.as_str());
    let text = format!(in alloc;
        "signal {number} the samples of {name} in the recording {file}\n"
    )?;
    Octets::copy_of(alloc, text.as_bytes())
}

//! Signals, made of tables.

ghost use Rattle.std.specs.Prelude.{◌≡◌, IfOk};
ghost use Rattle.daemon_signals.specs.Values.{ramp_values, square_values, wave_of, starts};

use crate::numbers::numbers_in;
use crate::recordings::{Recorded, Recordings};
use crate::tables::{copy_of, ramp_values, square_values};
use crate::{Played, Trouble};
use ads_base::{ListOf, NoMemory};
use ads_outside::{Files, Got};
use cli_words::Text;
use daemon_words::{RampTable, RecordingTable, SquareTable, ValueList};
use signals::Signal;
use std::alloc::Global;

pub(crate) fn played_ramp(alloc: Global, ramp: &RampTable) -> Result<Played, Trouble>
    ensures { IfOk result (λ p. ⟦<Played as Signal>⟧.wave p ≡ wave_of (ramp_values ramp.now.step ramp.now.period)) }
{
    match ramp_values(alloc, ramp.step, ramp.period) {
        Ok(values) => played(values),
        Err(NoMemory) => Err(Trouble::Memory),
    }
}

pub(crate) fn played_square(alloc: Global, square: &SquareTable) -> Result<Played, Trouble>
    ensures { IfOk result (λ p. ⟦<Played as Signal>⟧.wave p
        ≡ wave_of (square_values square.now.low square.now.high square.now.ticks)) }
{
    match square_values(alloc, square.low, square.high, square.ticks) {
        Ok(values) => played(values),
        Err(NoMemory) => Err(Trouble::Memory),
    }
}

pub(crate) fn played_values(alloc: Global, list: &ValueList) -> Result<Played, Trouble>
    ensures { IfOk result (λ p. ⟦<Played as Signal>⟧.wave p ≡ wave_of list.now.values) }
{
    match copy_of(alloc, list.values.as_slice()) {
        Ok(values) => played(values),
        Err(NoMemory) => Err(Trouble::Memory),
    }
}

pub(crate) fn played_file<F: Files>(
    alloc: Global,
    name: &Text,
    files: &mut F,
) -> Result<Played, Trouble>
    ensures first { IfOk result (λ p. starts (⟦<Played as Signal>⟧.wave p)) }
    ensures held { (F.state files.new).held ≡ (F.state files.old).held }
{
    match files.read(name.as_str()) {
        Got::Bytes(bytes) => played_text(alloc, bytes.as_slice()),
        Got::TooLong => Err(Trouble::TooLong),
        Got::Failed => Err(Trouble::Unreadable),
        Got::Memory => Err(Trouble::Memory),
    }
}

fn played_text(alloc: Global, text: &[u8]) -> Result<Played, Trouble>
    ensures { IfOk result (λ p. starts (⟦<Played as Signal>⟧.wave p)) }
{
    match numbers_in(alloc, text) {
        Ok(Ok(values)) => played(values),
        Ok(Err(line)) => Err(Trouble::Line(line)),
        Err(NoMemory) => Err(Trouble::Memory),
    }
}

pub(crate) fn played_recording<R: Recordings>(
    recording: &RecordingTable,
    recordings: &mut R,
) -> Result<Played, Trouble>
    ensures { IfOk result (λ p. starts (⟦<Played as Signal>⟧.wave p)) }
{
    match recordings.samples(recording.file.as_str(), recording.name.as_str()) {
        Recorded::Numbers(values) => played(values),
        Recorded::NoName => Err(Trouble::NoName),
        Recorded::Size => Err(Trouble::Size),
        Recorded::TooMany => Err(Trouble::TooMany),
        Recorded::Failed => Err(Trouble::NoRecording),
        Recorded::Memory => Err(Trouble::Memory),
    }
}

// A signal with these values, if there are any.
fn played(values: ListOf<u64>) -> Result<Played, Trouble>
    ensures { IfOk result (λ p. ⟦<Played as Signal>⟧.wave p ≡ wave_of values) }
{
    if values.len() == 0 {
        return Err(Trouble::Empty);
    }
    Ok(Played::new(values))
}

//! The tables `[[signal]]` of a configuration.

ghost use Rattle.std.specs.Prelude.{◌≢◌, ◌<◌, length};

use ads_base::ListOf;
use cli_words::Text;

/// What a signal is: the values that it has at the ticks 0, 1, 2, ..
#[derive(Debug, Drop)]
pub enum SignalTable {
    Ramp(RampTable),
    Square(SquareTable),
    Values(ValueList),
    /// The numbers of this file, one a line, again and again.
    File(Text),
    /// The samples of a symbol that `ads record` put into a file, in their order, again and again.
    Recording(RecordingTable),
}

/// 0, the step, twice the step, .., for as many ticks as the period, again and again.
#[derive(Clone, Copy, Debug, PartialEq, Eq)]
pub struct RampTable {
    pub step: u32,
    pub period: u32,
    ghost some: { period ≢ 0 },
}

/// One value for so many ticks and another for as many, again and again.
#[derive(Clone, Copy, Debug, PartialEq, Eq)]
pub struct SquareTable {
    pub low: u64,
    pub high: u64,
    pub ticks: u32,
    ghost some: { ticks ≢ 0 },
}

/// Values, again and again.
#[derive(Debug, Drop)]
pub struct ValueList {
    pub values: ListOf<u64>,
    ghost some: { 0 < length values },
}

/// A symbol of a recording.
#[derive(Debug, Drop)]
pub struct RecordingTable {
    pub file: Text,
    pub name: Text,
}

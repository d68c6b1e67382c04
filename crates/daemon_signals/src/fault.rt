//! Why a signal can't be made.

use ads_base::{NoMemory, Octets};
use std::alloc::Global;

/// What is wrong with a file or a recording.
#[derive(Clone, Copy, Debug, PartialEq, Eq)]
pub enum Trouble {
    /// The file can't be read.
    Unreadable,
    /// The file has more than 16,777,216 bytes.
    TooLong,
    /// The line with this number, counted from 1, is no number.
    Line(u64),
    /// The file has no number.
    Empty,
    /// The recording can't be read.
    NoRecording,
    /// The recording has no sample of the symbol.
    NoName,
    /// A sample of the symbol has no byte, or more than eight.
    Size,
    /// The recording has more than 1,048,576 samples of the symbol.
    TooMany,
    /// Memory was wanting.
    Memory,
}

/// The signal that can't be made, by its number, and why.
#[derive(Clone, Copy, Debug, PartialEq, Eq)]
pub struct SourceFault {
    pub signal: u32,
    pub trouble: Trouble,
}

impl SourceFault {
    /// The sentence that tells it, behind the name of the program, as a line.
    pub fn sentence(&self, alloc: Global) -> Result<Octets, NoMemory> {
        match self.trouble {
            Trouble::Line(line) => line_text(alloc, self.signal, line),
            trouble => trouble_text(alloc, self.signal, words_of(trouble)),
        }
    }
}

fn line_text(alloc: Global, number: u32, line: u64) -> Result<Octets, NoMemory> {
    let text = format!(in alloc;
        "adsd: [[signal]] {number}: line {line} of its file is no number from -9223372036854775808 to 18446744073709551615\n"
    )?;
    Octets::copy_of(alloc, text.as_bytes())
}

fn trouble_text(alloc: Global, number: u32, words: &str) -> Result<Octets, NoMemory> {
    let text = format!(in alloc; "adsd: [[signal]] {number}: {words}\n")?;
    Octets::copy_of(alloc, text.as_bytes())
}

fn words_of(trouble: Trouble) -> &'static str {
    match trouble {
        Trouble::Unreadable => "its file cannot be read",
        Trouble::TooLong => "its file has more than 16777216 bytes",
        Trouble::Line(_) => "a line of its file is no number",
        Trouble::Empty => "its file has no number",
        Trouble::NoRecording =>
            "its recording cannot be read: it is not there, is no recording, or another program has it open",
        Trouble::NoName => "its recording has no sample of this name",
        Trouble::Size => "a sample of this name has no byte, or more than eight",
        Trouble::TooMany => "its recording has more than 1048576 samples of this name",
        Trouble::Memory => "out of memory",
    }
}

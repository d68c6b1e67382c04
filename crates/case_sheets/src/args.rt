//! The words of a case behind the name of the call.

use crate::fault::Fault;
use crate::folder::Sheet;
use crate::pieces::{cut_at, put_word};
use ads_base::{NetId, NoMemory, Octets, read_decimal};
use std::alloc::Global;

/// The words of a case that are still to be read. A word that is off its form is read as 0 or no bytes; that it was is
/// kept, and told at the end by `fault`.
#[derive(Drop)]
pub struct Args<'a> {
    alloc: Global,
    sheets: &'a [Sheet],
    rest: &'a [u8],
    /// How many bytes the last argument keeps, where it is cut.
    cut: Option<usize>,
    /// How many bytes the last argument has.
    whole: usize,
    fault: Option<Fault>,
}

impl<'a> Args<'a> {
    pub fn new(alloc: Global, sheets: &'a [Sheet], rest: &'a [u8], cut: Option<usize>) -> Self {
        Args {
            alloc,
            sheets,
            rest,
            cut,
            whole: 0,
            fault: None,
        }
    }

    /// How many bytes the last argument had before it was cut.
    pub fn whole(&self) -> usize {
        self.whole
    }

    /// What is not read yet.
    pub fn rest(&self) -> &'a [u8] {
        self.rest
    }

    /// Why an argument can't be read or taken, if one can't.
    pub fn fault(&self) -> Result<(), Fault> {
        match self.fault {
            Some(fault) => Err(fault),
            None => Ok(()),
        }
    }

    /// Tells that an argument is none that the call takes.
    pub fn refuse(&mut self) {
        self.fault = Some(Fault::BadArgument);
    }

    /// Whether a further word stands before `=>`.
    pub fn has_more(&self) -> bool {
        let (word, _) = next_word(self.rest);
        !word.is_empty() && !is_word(word, "=>")
    }

    /// The next word, as it is written. Empty at the end.
    pub fn word(&mut self) -> &'a [u8] {
        let (word, behind) = next_word(self.rest);
        self.rest = behind;
        word
    }

    /// The next word as a text. Empty at the end.
    pub fn name(&mut self) -> &'a str {
        match std::str::from_utf8(self.word()) {
            Ok(name) => name,
            Err(_) => "",
        }
    }

    /// The next word as a number, in decimal or behind `0x`.
    pub fn u64(&mut self) -> u64 {
        match number_of(self.word()) {
            Some(n) => n,
            None => {
                self.refuse();
                0
            }
        }
    }

    pub fn u32(&mut self) -> u32 {
        let n = self.u64();
        if n < 1 << 32 {
            return n as u32;
        }
        self.refuse();
        0
    }

    pub fn u16(&mut self) -> u16 {
        let n = self.u64();
        if n < 1 << 16 {
            return n as u16;
        }
        self.refuse();
        0
    }

    pub fn u8(&mut self) -> u8 {
        let n = self.u64();
        if n < 1 << 8 {
            return n as u8;
        }
        self.refuse();
        0
    }

    /// The NetId whose text is the next word.
    pub fn net(&mut self) -> NetId {
        match NetId::read(self.word()) {
            Some(net) => net,
            None => {
                self.refuse();
                NetId { bytes: [0; 6] }
            }
        }
    }

    /// The bytes that the next word writes.
    pub fn octets(&mut self) -> Octets {
        let word = self.word();
        let mut bytes = Octets::new(self.alloc);
        if let Err(fault) = put_word(self.alloc, self.sheets, word, &mut bytes) {
            self.fault = Some(fault);
        }
        if !self.has_more() {
            self.whole = bytes.len();
            if let Some(cut) = self.cut {
                bytes.cut(cut.min(bytes.len()));
            }
        }
        bytes
    }

    /// Whether a word of an answer is the one that must come: as it is written, as the number that is wanted behind
    /// `0x`, or as the bytes that are wanted.
    pub fn are_same(&self, wanted: &[u8], word: &[u8]) -> Result<bool, NoMemory> {
        if is_same(wanted, word) {
            return Ok(true);
        }
        if wanted.is_empty() || word.is_empty() {
            return Ok(false);
        }
        if let [b'0', b'x', ..] = wanted {
            return Ok(number_of(wanted) == read_decimal(word));
        }
        let wanted = self.bytes_of(wanted)?;
        let bytes = self.bytes_of(word)?;
        Ok(wanted.is_some() && wanted == bytes)
    }

    // The bytes that a word writes, where it writes some.
    fn bytes_of(&self, word: &[u8]) -> Result<Option<Vec<u8>>, NoMemory> {
        let mut bytes = Octets::new(self.alloc);
        match put_word(self.alloc, self.sheets, word, &mut bytes) {
            Ok(()) => Ok(Some(bytes.into_vec())),
            Err(Fault::Memory) => Err(NoMemory),
            Err(_) => Ok(None),
        }
    }
}

/// Whether a word is this one.
pub fn is_word(word: &[u8], text: &str) -> bool {
    is_same(word, text.as_bytes())
}

/// Whether bytes are the same.
pub fn is_same(a: &[u8], b: &[u8]) -> bool {
    a == b
}

/// The first word of a text, and what stands behind it. The word is empty where the text has none.
pub fn next_word(text: &[u8]) -> (&[u8], &[u8]) {
    let mut rest = text;
    for _ in 0..text.len() {
        match cut_at(rest, b' ') {
            ([], Some(behind)) => rest = behind,
            (word, Some(behind)) => return (word, behind),
            (word, None) => return (word, &[]),
        }
    }
    (&[], &[])
}

fn number_of(word: &[u8]) -> Option<u64> {
    match word {
        [b'0', b'x', digits @ ..] => hexadecimal(digits),
        _ => read_decimal(word),
    }
}

fn hexadecimal(digits: &[u8]) -> Option<u64> {
    let text = std::str::from_utf8(digits).ok()?;
    u64::from_str_radix(text, 16).ok()
}

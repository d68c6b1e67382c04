//! The words of a case, one after another, parted by a blank.

use crate::fault::Fault;
use ads_base::read_decimal;

/// The words of a case that are still to be read.
#[derive(Drop)]
pub struct Words<'a> {
    rest: &'a str,
}

impl<'a> Words<'a> {
    pub fn new(text: &'a str) -> Words<'a> {
        Words { rest: text }
    }

    /// What is not read yet.
    pub fn rest(&self) -> &'a str {
        self.rest
    }

    /// The next word. Empty at the end.
    pub fn word(&mut self) -> &'a str {
        let (word, behind) = self.rest.split_once(' ').unwrap_or((self.rest, ""));
        self.rest = behind;
        word
    }

    /// Whether this word comes next, which then is read.
    pub fn takes(&mut self, word: &str) -> bool {
        let (next, behind) = self.rest.split_once(' ').unwrap_or((self.rest, ""));
        if next != word {
            return false;
        }
        self.rest = behind;
        true
    }

    /// The next word as a number.
    pub fn number(&mut self) -> Result<u64, Fault> {
        match read_decimal(self.word().as_bytes()) {
            Some(n) => Ok(n),
            None => Err(Fault::Off("a word is no number")),
        }
    }
}

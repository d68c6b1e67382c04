//! The words that came.

use std::alloc::{AllocError, Global};

/// The words that came so far. Want of memory for one of them is kept, and told at the end by `text`.
#[derive(Drop)]
pub struct Answer {
    alloc: Global,
    words: String,
    is_cut: bool,
}

impl Answer {
    pub fn new(alloc: Global) -> Answer {
        Answer {
            alloc,
            words: String::new(alloc),
            is_cut: false,
        }
    }

    /// A word as it stands.
    pub fn say(&mut self, word: &str) {
        if !self.words.is_empty() {
            self.put(" ");
        }
        self.put(word);
    }

    pub fn tell(&mut self, n: u64) {
        let text = format!(in self.alloc; "{n}");
        self.say_made(text);
    }

    /// Bytes as hexadecimal digits, none as `""`.
    pub fn bytes(&mut self, bytes: &[u8]) {
        if bytes.is_empty() {
            self.say("\"\"");
        } else {
            let text = hex::encode(self.alloc, bytes);
            self.say_made(text);
        }
    }

    /// All words, parted by a blank.
    pub fn text(&self) -> Result<&str, AllocError> {
        if self.is_cut {
            return Err(AllocError);
        }
        Ok(self.words.as_str())
    }

    fn say_made(&mut self, text: Result<String, AllocError>) {
        match text {
            Ok(text) => self.say(text.as_str()),
            Err(_) => self.is_cut = true,
        }
    }

    fn put(&mut self, text: &str) {
        if self.words.push_str(text).is_err() {
            self.is_cut = true;
        }
    }
}

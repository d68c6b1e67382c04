//! The answer of a call, written as words.

use ads_base::{NetId, NoMemory, Octets};
use std::alloc::{AllocError, Global};
use type_layout::Kind;

/// The words of an answer so far. Want of memory for a word is kept, and told at the end by `fault`.
#[derive(Drop)]
pub struct Answer {
    alloc: Global,
    words: Octets,
    is_cut: bool,
}

impl Answer {
    pub fn new(alloc: Global) -> Self {
        Answer {
            alloc,
            words: Octets::new(alloc),
            is_cut: false,
        }
    }

    pub fn as_slice(&self) -> &[u8] {
        self.words.as_slice()
    }

    /// Whether memory was wanting for one of the words.
    pub fn fault(&self) -> Result<(), NoMemory> {
        if self.is_cut { Err(NoMemory) } else { Ok(()) }
    }

    /// A word as it stands.
    pub fn say(&mut self, word: &str) {
        self.begin();
        self.put(word.as_bytes());
    }

    /// The words of another answer.
    pub fn say_all(&mut self, other: &Answer) {
        self.is_cut = self.is_cut || other.is_cut;
        self.begin();
        self.put(other.as_slice());
    }

    pub fn tell(&mut self, n: u64) {
        let text = format!(in self.alloc; "{n}");
        self.say_made(text);
    }

    pub fn tell_signed(&mut self, n: i64) {
        let text = format!(in self.alloc; "{n}");
        self.say_made(text);
    }

    /// A return code by its number, as `0x710`.
    pub fn tell_code(&mut self, number: u32) {
        let text = format!(in self.alloc; "0x{number:X}");
        self.say_made(text);
    }

    /// The text of a NetId.
    pub fn tell_net(&mut self, net: NetId) {
        let [a, b, c, d, e, f] = net.bytes;
        let text = format!(in self.alloc; "{a}.{b}.{c}.{d}.{e}.{f}");
        self.say_made(text);
    }

    /// A plain type, by its name in the library.
    pub fn tell_kind(&mut self, kind: Kind) {
        let text = format!(in self.alloc; "{kind:?}");
        self.say_made(text);
    }

    /// Whether something holds, as `yes` or `no`.
    pub fn tell_truth(&mut self, holds: bool) {
        self.say(if holds { "yes" } else { "no" });
    }

    /// A name and a number.
    pub fn name(&mut self, name: &str, n: u64) {
        self.say(name);
        self.tell(n);
    }

    /// Bytes as hexadecimal digits; more than 16 that are all the same as `a5*1048576`, none as `""`.
    pub fn hex(&mut self, bytes: &[u8]) {
        self.begin();
        match bytes {
            [] => self.put(b"\"\""),
            [first, ..] if bytes.len() > 16 && bytes.iter().all(|b| b == first) => {
                self.put_digits(*first);
                self.put(b"*");
                self.put_count(bytes.len());
            }
            _ => {
                for byte in bytes {
                    self.put_digits(*byte);
                }
            }
        }
    }

    /// Bytes as a text in quotes.
    pub fn quote(&mut self, text: &[u8]) {
        self.begin();
        self.put(b"\"");
        for byte in text {
            self.put_character(*byte);
        }
        self.put(b"\"");
    }

    fn say_made(&mut self, text: Result<String, AllocError>) {
        match text {
            Ok(text) => self.say(text.as_str()),
            Err(_) => self.is_cut = true,
        }
    }

    fn begin(&mut self) {
        if self.words.len() > 0 {
            self.put(b" ");
        }
    }

    fn put(&mut self, bytes: &[u8]) {
        if self.words.put(self.alloc, bytes).is_err() {
            self.is_cut = true;
        }
    }

    fn put_count(&mut self, count: usize) {
        match format!(in self.alloc; "{count}") {
            Ok(text) => self.put(text.as_bytes()),
            Err(_) => self.is_cut = true,
        }
    }

    fn put_character(&mut self, byte: u8) {
        match byte {
            b'\n' => self.put(b"\\n"),
            b'"' | b'\\' => self.put(&[b'\\', byte]),
            b' '..=b'~' => self.put(&[byte]),
            _ => {
                self.put(b"\\x");
                self.put_digits(byte);
            }
        }
    }

    fn put_digits(&mut self, byte: u8) {
        self.put(&[digit(byte >> 4), digit(byte & 15)]);
    }
}

fn digit(n: u8) -> u8 {
    match n {
        0..=9 => b'0' + n,
        10..=15 => b'a' + (n - 10),
        _ => b'?',
    }
}

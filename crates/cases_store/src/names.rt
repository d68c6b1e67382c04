//! Bytes with a name, and the bytes that a word writes.

use crate::fault::Fault;
use ads_base::{Octets, read_decimal};
use std::alloc::Global;

#[derive(Drop)]
struct Named {
    name: String,
    bytes: Octets,
}

/// The bytes of a table that have a name.
#[derive(Drop)]
pub struct Names {
    alloc: Global,
    all: Vec<Named>,
}

impl Names {
    pub fn new(alloc: Global) -> Names {
        Names {
            alloc,
            all: Vec::new(alloc),
        }
    }

    /// Gives a name to the bytes that a word writes.
    pub fn add(&mut self, name: &str, word: &str) -> Result<(), Fault> {
        let bytes = self.octets(word)?;
        let name = String::from_str(self.alloc, name)?;
        self.all.push(Named { name, bytes })?;
        Ok(())
    }

    /// The name of some bytes.
    pub fn name_of(&self, bytes: &[u8]) -> &str {
        for named in &self.all {
            if named.bytes.as_slice() == bytes {
                return named.name.as_str();
            }
        }
        "unnamed"
    }

    /// The bytes that a word writes: pieces joined by `+`, each a name, a text in quotes, or hexadecimal digits, and each
    /// perhaps followed by `*N`, which says how often.
    pub fn octets(&self, word: &str) -> Result<Octets, Fault> {
        let mut bytes = Octets::new(self.alloc);
        for piece in word.split('+') {
            let (unit, times) = piece.split_once('*').unwrap_or((piece, "1"));
            let Some(times) = read_decimal(times.as_bytes()) else {
                return Err(Fault::Off("no number behind `*`"));
            };
            self.put_often(unit, times, &mut bytes)?;
        }
        Ok(bytes)
    }

    fn put_often(&self, unit: &str, times: u64, out: &mut Octets) -> Result<(), Fault> {
        let unit = self.unit(unit)?;
        for _ in 0..times {
            out.put(self.alloc, unit.as_slice())?;
        }
        Ok(())
    }

    fn unit(&self, unit: &str) -> Result<Octets, Fault> {
        for named in &self.all {
            if named.name.as_str() == unit {
                return Ok(Octets::copy_of(self.alloc, named.bytes.as_slice())?);
            }
        }
        if let Some(text) = unit.strip_prefix('"') {
            let text = text.strip_suffix('"').unwrap_or(text);
            return Ok(Octets::copy_of(self.alloc, text.as_bytes())?);
        }
        match hex::decode(self.alloc, unit) {
            Ok(bytes) => Ok(Octets::from_vec(bytes)),
            Err(_) => Err(Fault::Off("a word writes no bytes")),
        }
    }
}

//! Numbers of connections, each once, in the order in which they came.

ghost use Rattle.std.specs.Prelude.{◌≡◌, ◌++◌, [], ◌∷◌, false, length, take, OnOk, OnErr};
ghost use Rattle.spec_machine.specs.Reading.{is_among};

use ads_base::NoMemory;
use indexmap::IndexSet;
use std::alloc::Global;
use std::marker::Model;

/// Numbers in order, each once, in a set: whether one is there costs the same however many there are.
#[derive(Drop)]
pub struct NumberList {
    numbers: IndexSet<u32>,
}

impl Model for NumberList {
    ghost use Rattle.std.specs.Prelude.{ℕ, List};

    ghost Value = { List ℕ };

    ghost view = { λ l. l.numbers.keys };
}

impl NumberList {
    /// No number.
    pub fn new(alloc: Global) -> Self
        ensures { result ≡ [] }
    {
        NumberList {
            numbers: IndexSet::new(alloc),
        }
    }

    /// How many there are.
    pub fn len(&self) -> usize
        ensures { result ≡ length self.now }
    {
        self.numbers.len()
    }

    /// Whether a number is there.
    pub fn has(&self, number: u32) -> bool
        ensures { result ≡ is_among number self.now }
    {
        // Most lists stay empty, and a look-up hashes the number first.
        if self.numbers.is_empty() {
            return false;
        }
        self.numbers.contains(&number)
    }

    /// Whether a number is among so many first ones.
    pub fn has_among(&self, number: u32, count: usize) -> bool
        ensures { result ≡ is_among number (take count self.now) }
    {
        if count == 0 {
            return false;
        }
        match self.numbers.get_index_of(&number) {
            Some(at) => at < count,
            None => false,
        }
    }

    /// Appends a number that is not there.
    pub fn push(&mut self, number: u32) -> Result<(), NoMemory>
        requires { is_among number self.old ≡ false }
        ensures ok { OnOk result (self.new ≡ self.old ++ number ∷ []) }
        ensures no_memory { OnErr result (self.new ≡ self.old) }
    {
        self.numbers.insert(number)?;
        Ok(())
    }
}

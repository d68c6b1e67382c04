//! The numbers of names, under the names in lower case.

ghost use Rattle.std.specs.Prelude.{◌≡◌, ℕ, ◌+◌, ◌^◌, ◌<◌, ◌++◌, ◌∷◌, [], List, length, OnOk, OnErr};
ghost use Rattle.name_paths.specs.Identifier.{lower};
ghost use Rattle.name_index.specs.Numbered.{AreNumbered, first_called};
ghost use Rattle.name_index.specs.Entries.{number_of, AddsEntry};

use crate::lower::{is_lower_of, lower_copy, put_lower};
use ads_base::NoMemory;
use indexmap::IndexMap;
use std::alloc::Global;
use std::marker::Model;

/// Names that are numbered from 0 in the order of a list, found ASCII case aside. Of two that are the same the first
/// counts.
#[derive(Drop)]
pub struct NameIndex {
    numbers: IndexMap<Vec<u8>, u32>,
    // How many names were added.
    count: u32,
}

impl Model for NameIndex {
    ghost use Rattle.std.specs.Prelude.{map};
    ghost use Rattle.name_index.specs.Numbered.{NameNumbers};

    ghost Value = { NameNumbers };

    ghost view = { λ n. record { entries = map (λ e. (e.0.items, e.1)) n.numbers.entries; count = n.count } };
}

impl NameIndex {
    /// The index of no name.
    pub fn new(alloc: Global) -> NameIndex
        ensures { AreNumbered [] result }
    {
        NameIndex {
            numbers: IndexMap::new(alloc),
            count: 0,
        }
    }

    /// The number of the first name that is this one, ASCII case aside. None exactly where there is none.
    pub fn find(&self, name: &[u8]) -> Option<u32>
        ensures { (names : List (List ℕ)) → AreNumbered names self.now → result ≡ first_called names name.now }
    {
        let mut room = [0; 255];
        if name.len() > room.len() {
            return self.number_of_long(name);
        }
        put_lower(&mut room, name);
        self.number(&room[..name.len()])
    }

    /// How many names were added.
    pub fn len(&self) -> u32
        ensures count { result ≡ self.now.count }
        ensures names { (names : List (List ℕ)) → AreNumbered names self.now → result ≡ length names }
    {
        self.count
    }

    /// One more name, whose number is how many there were.
    pub fn add(&mut self, alloc: Global, name: &[u8]) -> Result<(), NoMemory>
        requires { self.old.count + 1 < 2 ^ 32 }
        ensures ok { OnOk result ((names : List (List ℕ)) → AreNumbered names self.old
            → AreNumbered (names ++ name.now ∷ []) self.new) }
        ensures no_memory { OnErr result (self.new ≡ self.old) }
    {
        let low = lower_copy(alloc, name)?;
        self.add_lower(low, self.count)?;
        self.count += 1;
        Ok(())
    }

    fn number(&self, low: &[u8]) -> Option<u32>
        ensures { result ≡ number_of low.now self.now.entries }
    {
        self.numbers.get(low).copied()
    }

    // A name that is longer than the room for a copy is compared with each.
    fn number_of_long(&self, name: &[u8]) -> Option<u32>
        ensures { result ≡ number_of (lower name.now) self.now.entries }
    {
        for (low, number) in &self.numbers {
            if is_lower_of(low.as_slice(), name) {
                return Some(*number);
            }
        }
        None
    }

    // A further name in lower case, which counts where it is new.
    fn add_lower(&mut self, low: Vec<u8>, number: u32) -> Result<(), NoMemory>
        ensures ok { OnOk result (AddsEntry (low.items, number) self.old.entries self.new.entries) }
        ensures counted { OnOk result (self.new.count ≡ self.old.count) }
        ensures no_memory { OnErr result (self.new ≡ self.old) }
    {
        if self.number(low.as_slice()).is_some() {
            return Ok(());
        }
        self.numbers.insert(low, number)?;
        Ok(())
    }
}

//! A list of values: what is called a list elsewhere is one of these.

ghost use Rattle.std.specs.Prelude.{◌≡◌, [], ◌∷◌, ◌++◌, length, OnOk, OnErr};
ghost use Rattle.std.specs.Borrow.{sem};
ghost use Rattle.ads_base.specs.ListOf.{LendsList};

use crate::NoMemory;
use std::alloc::Global;
use std::marker::Model;

/// A list over a vector, which contracts see as the list of its values.
#[derive(Debug, Drop)]
pub struct ListOf<T> {
    values: Vec<T>,
}

impl<T> Model for ListOf<T> {
    ghost use Rattle.std.specs.Prelude.{List};

    ghost Value = { List T };

    ghost view = { λ l. l.values.items };
}

impl<T> ListOf<T> {
    /// No values. Nothing is allocated.
    pub fn new(alloc: Global) -> Self
        ensures { result ≡ [] }
    {
        ListOf {
            values: Vec::new(alloc),
        }
    }

    /// The values of a vector, which takes no memory.
    pub fn from_vec(values: Vec<T>) -> Self
        ensures { result ≡ values.items }
    {
        ListOf { values }
    }

    /// The vector of the values, which takes no memory.
    pub fn into_vec(self) -> Vec<T>
        ensures { result.items ≡ self }
    {
        let ListOf { values } = self;
        values
    }

    /// The number of values.
    pub fn len(&self) -> usize
        ensures { result ≡ length self.now }
    {
        self.values.len()
    }

    /// The values.
    pub fn as_slice(&self) -> &[T]
        ensures { result.now ≡ self.now }
    {
        self.values.as_slice()
    }

    /// The values for writing; their number stays.
    pub fn as_mut_slice(&mut self) -> &mut [T]
        ensures* lends { sem 𝓛 (LendsList T.row self.entry result) }
        ensures value { result.now ≡ self.old }
    {
        self.values.as_mut_slice()
    }

    /// Appends one value; after want of memory it is dropped.
    pub fn push(&mut self, _alloc: Global, value: T) -> Result<(), NoMemory>
    where
        T: Drop,
        ensures ok { OnOk result (self.new ≡ self.old ++ value ∷ []) }
        ensures no_memory { OnErr result (self.new ≡ self.old) }
    {
        self.values.push(value)?;
        Ok(())
    }
}

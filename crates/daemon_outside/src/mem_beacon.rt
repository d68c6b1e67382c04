//! A beacon in memory, for tests.

ghost use Rattle.std.specs.Prelude.{◌≡◌};

use crate::Beacon;
use ads_base::{ListOf, NoMemory, Octets};
use std::alloc::Global;
use std::io::{self, ErrorKind};

/// The states that were told, in order, as far as memory sufficed.
#[derive(Drop)]
pub struct MemBeacon {
    alloc: Global,
    states: ListOf<Octets>,
}

impl MemBeacon {
    /// Nothing was told.
    pub fn new(alloc: Global) -> MemBeacon {
        MemBeacon {
            alloc,
            states: ListOf::new(alloc),
        }
    }

    /// The states that were told.
    pub fn states(&self) -> &[Octets]
        ensures { result.now ≡ self.now.states }
    {
        self.states.as_slice()
    }
}

impl Beacon for MemBeacon {
    fn tell(&mut self, state: &[u8]) -> io::Result<()> {
        match put_copy(self.alloc, &mut self.states, state) {
            Ok(()) => Ok(()),
            Err(NoMemory) => Err(ErrorKind::OutOfMemory.into()),
        }
    }
}

fn put_copy(alloc: Global, states: &mut ListOf<Octets>, state: &[u8]) -> Result<(), NoMemory> {
    let copy = Octets::copy_of(alloc, state)?;
    states.push(alloc, copy)
}

//! The connections that are there, by their numbers.

ghost use Rattle.std.specs.Prelude.{◌≡◌, [], ◌∷◌, ◌++◌, length, slice_get, option_map, IfNone, IfSome, IsTrue, OnErr, OnOk};

use crate::outlet::Outlet;
use crate::touched::Touched;
use ads_base::NoMemory;
use indexmap::IndexMap;
use std::alloc::Global;
use std::marker::Model;

/// What waits for each connection that is there, by its number, in the order of opening.
#[derive(Drop)]
pub struct Outlets {
    pub(crate) entries: IndexMap<u32, Outlet>,
    // Where something may be offered, or a connection is to be shut.
    pub(crate) touched: Touched,
}

impl Model for Outlets {
    ghost use Rattle.std.specs.Prelude.{ℕ, List};
    ghost use Rattle.connections.specs.declared.outlet.Outlet.{Outlet as OutletOf};
    ghost use Rattle.connections.specs.Touched.{OthersIdle};

    ghost Value = { List (ℕ × OutletOf) };

    ghost view = { λ s. s.entries.entries };

    ghost invariant = { λ s. OthersIdle s.touched s.entries.entries };
}

impl Outlets {
    ghost use Rattle.connections.specs.Entries.{IsEntry, IsNoEntry};
    ghost use Rattle.connections.specs.Outlets.{fresh_outlet, without_number};

    /// No connection is there.
    pub fn new(alloc: Global) -> Outlets
        ensures { result ≡ [] }
    {
        Outlets {
            entries: IndexMap::new(alloc),
            touched: Touched::Nothing,
        }
    }

    /// How many are there.
    pub fn len(&self) -> usize
        ensures { result ≡ length self.now }
    {
        self.entries.len()
    }

    /// The number of the connection at a place; None past the last.
    #[inline(always)]
    pub fn number_at(&self, i: usize) -> Option<u32>
        ensures { result ≡ option_map (λ e. e.0) (slice_get self.now i) }
    {
        Some(*self.entries.get_index(i)?.0)
    }

    /// Where the connection of a number stands.
    #[inline(always)]
    pub fn place_of(&self, number: u32) -> Option<usize>
        ensures found { IfSome result (IsEntry self.now number) }
        ensures absent { IfNone result (IsNoEntry self.now number) }
    {
        self.place_near(self.near(number), number)
    }

    /// The same. It is looked for at a place first, and its number is looked up only where it does not stand there.
    #[inline(always)]
    pub fn place_near(&self, near: usize, number: u32) -> Option<usize>
        ensures found { IfSome result (IsEntry self.now number) }
        ensures absent { IfNone result (IsNoEntry self.now number) }
    {
        if self.is_at(near, number) {
            return Some(near);
        }
        self.entries.get_index_of(&number)
    }

    // Where it mostly stands: an event asks again for those that it touched. Numbers count from 1 in the order of opening, so
    // where none is gone a connection stands at its number less one.
    #[inline(always)]
    fn near(&self, number: u32) -> usize {
        match self.touched {
            Touched::One(a) => a,
            Touched::Two(a, b) => { if self.is_at(b, number) { b } else { a } }
            Touched::Nothing | Touched::All => number.saturating_sub(1) as usize,
        }
    }

    // Whether the connection of a number stands at a place.
    #[inline(always)]
    fn is_at(&self, i: usize, number: u32) -> bool
        ensures { IsTrue result → IsEntry self.now number i }
    {
        if i >= self.entries.len() {
            return false;
        }
        match self.number_at(i) {
            Some(there) => there == number,
            None => false,
        }
    }

    /// A connection is opened, whose number is not there.
    pub fn open(&mut self, alloc: Global, number: u32) -> Result<(), NoMemory>
        requires { IsNoEntry self.old number }
        ensures ok { OnOk result (self.new ≡ self.old ++ (number, fresh_outlet) ∷ []) }
        ensures no_memory { OnErr result (self.new ≡ self.old) }
    {
        let outlet = Outlet::fresh(alloc)?;
        let _ = self.entries.insert(number, outlet)?;
        Ok(())
    }

    /// A connection is gone: it was closed, lost or shut. Where it stood; nothing changes where it is not there.
    pub fn end(&mut self, number: u32) -> Option<usize>
        ensures found { IfSome result (IsEntry self.old number) }
        ensures absent { IfNone result (IsNoEntry self.old number) }
        ensures gone { self.new ≡ without_number number self.old }
    {
        let i = self.place_of(number)?;
        let _ = self.entries.shift_remove_index(i);
        self.touched = self.touched.without(i);
        Some(i)
    }
}

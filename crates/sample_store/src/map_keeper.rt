//! Samples in memory, for tests.

ghost use Rattle.std.specs.Prelude.{◌≡◌, ◌≢◌, ◌≤◌, ◌<◌, ◌+◌, ◌++◌, [], ◌∷◌, length, true, Some, option_map, OnOk, OnErr};

use crate::places::put_row;
use crate::totals::total_of;
use crate::{Keeper, KeeperOpen, Kept, Row, Totalled};
use ads_base::{Calls, ListOf, NoMemory, Octets};
use ads_outside::Failing;
use std::alloc::Global;
use std::marker::Model;

/// Samples in memory. Calls with given numbers fail.
#[derive(Drop)]
pub struct MapKeeper {
    alloc: Global,
    rows: Vec<Row>,
    names: ListOf<Octets>,
    failing: Failing,
}

impl Model for MapKeeper {
    ghost use Rattle.std.specs.Prelude.{map};
    ghost use Rattle.spec_samples.specs.Laws.{AreCountedFrom};
    ghost use Rattle.sample_store.specs.Views.{row_kept};
    ghost use Rattle.sample_store.specs.MapKeeper.{HeldRows};

    ghost Value = { HeldRows };

    ghost view = { λ m. record { rows = map row_kept m.rows.items; names = m.names; failing = m.failing } };

    ghost invariant = { λ m. AreCountedFrom 1 (map row_kept m.rows.items) };
}

impl MapKeeper {
    ghost use Rattle.ads_outside.specs.FailingCalls.{fails_next, none_made};
    ghost use Rattle.ads_outside.specs.Rose.{Rose};
    ghost use Rattle.sample_store.specs.MapKeeper.{failing_after};
    ghost use Rattle.spec_samples.specs.Laws.{AreCountedFrom};
    ghost use Rattle.spec_samples.specs.Rows.{row_numbered};
    ghost use Rattle.sample_store.specs.Views.{row_kept};

    /// No rows; the calls of `open`, `put` and `total` with these numbers, counted from 1, fail.
    pub fn new(alloc: Global, fails: Calls) -> MapKeeper
        ensures { result ≡ record { rows = []; names = []; failing = none_made fails } }
    {
        MapKeeper {
            alloc,
            rows: Vec::new(alloc),
            names: ListOf::new(alloc),
            failing: Failing::new(fails),
        }
    }

    /// The names that were opened, in order.
    pub fn names(&self) -> &[Octets]
        ensures { result.now ≡ self.now.names }
    {
        self.names.as_slice()
    }

    // A name that is opened.
    fn note(&mut self, name: &str) -> Result<(), NoMemory>
        ensures ok { OnOk result (self.new ≡ record self.old { names = self.old.names ++ name.now ∷ [] }) }
        ensures no_memory { OnErr result (self.new ≡ self.old) }
        ensures numbers { AreCountedFrom 1 self.new.rows }
    {
        let name = Octets::copy_of(self.alloc, name.as_bytes())?;
        self.names.push(self.alloc, name)?;
        Ok(())
    }

    // Counts a call, and tells whether it fails.
    fn counts_call(&mut self) -> bool
        ensures fails { result ≡ fails_next self.old.failing }
        ensures after { self.new ≡ record self.old { failing = failing_after self.old.failing } }
        ensures later { self.old.failing.faults ≤ self.new.failing.faults }
        ensures rose { result ≡ true → Rose self.old.failing.faults self.new.failing.faults }
    {
        let fails = self.failing.fails_next();
        if fails {
            self.failing.fault();
        } else {
            self.failing.call();
        }
        fails
    }

    /// The row of a number.
    pub fn row(&self, number: u64) -> Option<&Row>
        ensures { option_map (λ r. row_kept r.now) result ≡ row_numbered number self.now.rows }
    {
        match number.checked_sub(1) {
            None => None,
            Some(at) => self.rows.as_slice().get(at as usize),
        }
    }
}

impl Keeper for MapKeeper {
    ghost use Rattle.ads_outside.specs.FailingCalls.{fails_next};
    ghost use Rattle.sample_store.specs.MapKeeper.{failing_after};
    ghost use Rattle.ads_outside.specs.Rose.{Rose};
    ghost use Rattle.sample_store.specs.Keeper.{AreNumbered, Counts, Keeps, OpensName, Totals};
    ghost use Rattle.sample_store.specs.Views.{row_kept};

    ghost state = { λ m. record { rows = Some m.rows; names = Some m.names; faults = m.failing.faults } };

    fn faults(&self) -> u64 {
        self.failing.faults()
    }

    fn open(&mut self, name: &str) -> KeeperOpen
        ensures counts { Counts result (Some self.old.rows) }
        ensures named { OpensName result (Some self.old.names) (Some self.new.names) name.now }
        ensures numbers { AreNumbered (Some self.new.rows) }
        ensures rows { Some self.new.rows ≡ Some self.old.rows }
        ensures later { self.old.failing.faults ≤ self.new.failing.faults }
        ensures failed { result ≡ KeeperOpen.Failed → Rose self.old.failing.faults self.new.failing.faults }
        ensures fails { fails_next self.old.failing ≡ true → result ≢ KeeperOpen.Memory → result ≡ KeeperOpen.Failed }
        ensures only { result ≡ KeeperOpen.Failed → fails_next self.old.failing ≡ true }
        ensures counted { self.new.failing ≡ failing_after self.old.failing }
    {
        let fails = self.counts_call();
        if self.note(name).is_err() {
            return KeeperOpen::Memory;
        }
        if fails {
            return KeeperOpen::Failed;
        }
        KeeperOpen::Ready(self.rows.len() as u64)
    }

    fn put(&mut self, row: &Row) -> Kept
        requires some { 0 < row.now.number }
        requires next { row.now.number ≤ length self.old.rows + 1 }
        ensures kept { Keeps result (Some self.old.rows) (Some self.new.rows) (row_kept row.now) }
        ensures numbers { AreNumbered (Some self.new.rows) }
        ensures names { Some self.new.names ≡ Some self.old.names }
        ensures later { self.old.failing.faults ≤ self.new.failing.faults }
        ensures failed { result ≡ Kept.Failed → Rose self.old.failing.faults self.new.failing.faults }
        ensures fails { fails_next self.old.failing ≡ true → result ≡ Kept.Failed }
        ensures only { result ≡ Kept.Failed → fails_next self.old.failing ≡ true }
        ensures counted { self.new.failing ≡ failing_after self.old.failing }
    {
        if self.failing.fails_next() {
            self.failing.fault();
            return Kept::Failed;
        }
        self.failing.call();
        match put_row(self.alloc, &mut self.rows, row) {
            Ok(()) => Kept::Done,
            Err(NoMemory) => Kept::Memory,
        }
    }

    // Rows in memory stay where they were put, and nothing is counted.
    fn settle(&mut self) -> Kept
        ensures done { result ≡ Kept.Done }
        ensures same { self.new ≡ self.old }
        ensures rows { Some self.new.rows ≡ Some self.old.rows }
        ensures names { Some self.new.names ≡ Some self.old.names }
        ensures later { self.old.failing.faults ≤ self.new.failing.faults }
        ensures failed { result ≡ Kept.Failed → Rose self.old.failing.faults self.new.failing.faults }
    {
        Kept::Done
    }

    fn total(&mut self, name: &[u8]) -> Totalled
        ensures told { Totals result (Some self.old.rows) name.now }
        ensures numbers { AreNumbered (Some self.new.rows) }
        ensures rows { Some self.new.rows ≡ Some self.old.rows }
        ensures names { Some self.new.names ≡ Some self.old.names }
        ensures later { self.old.failing.faults ≤ self.new.failing.faults }
        ensures failed { result ≡ Totalled.Failed → Rose self.old.failing.faults self.new.failing.faults }
        ensures fails { fails_next self.old.failing ≡ true → result ≡ Totalled.Failed }
        ensures only { result ≡ Totalled.Failed → fails_next self.old.failing ≡ true }
        ensures counted { self.new.failing ≡ failing_after self.old.failing }
    {
        if self.failing.fails_next() {
            self.failing.fault();
            return Totalled::Failed;
        }
        self.failing.call();
        match total_of(self.alloc, self.rows.as_slice(), name) {
            Ok(Some(total)) => Totalled::Found(total),
            Ok(None) => Totalled::Nothing,
            Err(NoMemory) => Totalled::Memory,
        }
    }
}

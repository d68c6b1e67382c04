//! The connections that are to be served: something is offered to them, or they are to be shut.

ghost use Rattle.std.specs.Prelude.{◌≡◌, ◌≤◌, ◌<◌, ◌≢◌, ◌++◌, ℕ, [], false, length, slice_get, OnOk};
ghost use Rattle.connections.specs.Outlets.{numbers_due};
ghost use Rattle.connections.specs.Touched.{AreDue, IsUntouched, OthersIdle, due_at, number_if_due};

use crate::outlet::Outlet;
use crate::outlets::Outlets;
use crate::touched::Touched;
use ads_base::NoMemory;
use indexmap::IndexMap;
use std::alloc::Global;

impl Outlets {
    /// The numbers of the connections to whom something is offered, or who are to be shut, in the order of opening, in room that
    /// the caller keeps. It costs what was touched.
    pub fn due(&self, _alloc: Global, numbers: &mut Vec<u32>) -> Result<(), NoMemory>
        ensures { OnOk result (numbers.new.items ≡ numbers_due self.now) }
    {
        numbers.clear();
        match self.touched {
            Touched::Nothing => Ok(()),
            Touched::One(a) => self.put_one(a, numbers),
            Touched::Two(a, b) => self.put_two(a, b, numbers),
            Touched::All => self.put_all(numbers),
        }
    }

    /// Connections that are idle by now are forgotten among those that were touched.
    pub fn settle(&mut self)
        ensures { self.new ≡ self.old }
    {
        self.touched = settled(&self.entries, self.touched);
    }

    // Those at no place but one.
    fn put_one(&self, a: usize, numbers: &mut Vec<u32>) -> Result<(), NoMemory>
        requires idle { (k : ℕ) → k ≢ a → due_at self.now k ≡ false }
        requires none { numbers.old.items ≡ [] }
        ensures { OnOk result (numbers.new.items ≡ numbers_due self.now) }
    {
        self.put_due(a, numbers)
    }

    // Those at no place but two.
    fn put_two(&self, a: usize, b: usize, numbers: &mut Vec<u32>) -> Result<(), NoMemory>
        requires idle { (k : ℕ) → k ≢ a → k ≢ b → due_at self.now k ≡ false }
        requires none { numbers.old.items ≡ [] }
        ensures { OnOk result (numbers.new.items ≡ numbers_due self.now) }
    {
        if a < b {
            return self.put_ordered(a, b, numbers);
        }
        if b < a {
            return self.put_ordered(b, a, numbers);
        }
        self.put_one(a, numbers)
    }

    fn put_ordered(&self, a: usize, b: usize, numbers: &mut Vec<u32>) -> Result<(), NoMemory>
        requires order { a < b }
        requires idle { (k : ℕ) → k ≢ a → k ≢ b → due_at self.now k ≡ false }
        requires none { numbers.old.items ≡ [] }
        ensures { OnOk result (numbers.new.items ≡ numbers_due self.now) }
    {
        self.put_due(a, numbers)?;
        self.put_due(b, numbers)
    }

    fn put_all(&self, numbers: &mut Vec<u32>) -> Result<(), NoMemory>
        requires none { numbers.old.items ≡ [] }
        ensures { OnOk result (numbers.new.items ≡ numbers_due self.now) }
    {
        for i in 0..self.entries.len() {
            self.put_due(i, numbers)?;
        }
        Ok(())
    }

    // The number of the connection at a place, if it is to be served.
    fn put_due(&self, i: usize, numbers: &mut Vec<u32>) -> Result<(), NoMemory>
        ensures { OnOk result (numbers.new.items ≡ numbers.old.items ++ number_if_due (slice_get self.now i)) }
    {
        let Some((number, outlet)) = self.entries.get_index(i) else {
            return Ok(());
        };
        if outlet.is_due() {
            numbers.push(*number)?;
        }
        Ok(())
    }
}

// The places that are due among those that are touched; all, where many are touched and one is due.
fn settled(entries: &IndexMap<u32, Outlet>, touched: Touched) -> Touched
    requires { OthersIdle touched entries.now.entries }
    ensures idle { OthersIdle result entries.now.entries }
    ensures due { AreDue result entries.now.entries }
    ensures within { (k : ℕ) → IsUntouched touched k → IsUntouched result k }
{
    match touched {
        Touched::Nothing => Touched::Nothing,
        Touched::One(a) => settled_one(entries, a),
        Touched::Two(a, b) => settled_two(entries, a, b),
        Touched::All => settled_all(entries),
    }
}

fn settled_one(entries: &IndexMap<u32, Outlet>, a: usize) -> Touched
    requires { (k : ℕ) → k ≢ a → due_at entries.now.entries k ≡ false }
    ensures idle { OthersIdle result entries.now.entries }
    ensures due { AreDue result entries.now.entries }
    ensures within { (k : ℕ) → k ≢ a → IsUntouched result k }
{
    if is_due(entries, a) {
        Touched::One(a)
    } else {
        Touched::Nothing
    }
}

fn settled_two(entries: &IndexMap<u32, Outlet>, a: usize, b: usize) -> Touched
    requires { (k : ℕ) → k ≢ a → k ≢ b → due_at entries.now.entries k ≡ false }
    ensures idle { OthersIdle result entries.now.entries }
    ensures due { AreDue result entries.now.entries }
    ensures within { (k : ℕ) → k ≢ a → k ≢ b → IsUntouched result k }
{
    if !is_due(entries, a) {
        return settled_one(entries, b);
    }
    if !is_due(entries, b) {
        return settled_one(entries, a);
    }
    Touched::Two(a, b)
}

fn settled_all(entries: &IndexMap<u32, Outlet>) -> Touched
    ensures idle { OthersIdle result entries.now.entries }
    ensures due { AreDue result entries.now.entries }
{
    for i in 0..entries.len() {
        if is_due(entries, i) {
            return Touched::All;
        }
    }
    Touched::Nothing
}

// Whether the connection at a place is to be served.
fn is_due(entries: &IndexMap<u32, Outlet>, i: usize) -> bool
    ensures { result ≡ due_at entries.now.entries i }
{
    match entries.get_index(i) {
        Some((_, outlet)) => outlet.is_due(),
        None => false,
    }
}

//! Numbers that came before.
ghost use Rattle.std.specs.Prelude.{◌≡◌, ◌∷◌, ◌++◌, [], not, IfOk, if◌then◌else◌};
ghost use Rattle.std.specs.List.{list_all};
ghost use Rattle.spec_plant.specs.AcceptedTypes.{is_same_number};
ghost use Rattle.description_rules.specs.NextNumber.{IsNextNumber};

use ads_base::NoMemory;
use indexmap::IndexMap;
use std::alloc::Global;
use std::marker::Model;

/// Numbers, each of them once, in the order in which they came.
#[derive(Drop)]
pub struct SeenNumbers {
    numbers: IndexMap<i64, u8>,
}

impl Model for SeenNumbers {
    ghost use Rattle.std.specs.Prelude.{List, ℤ, map};

    ghost Value = { List ℤ };

    ghost view = { λ s. map (λ e. e.0) s.numbers.entries };
}

impl SeenNumbers {
    pub fn new(alloc: Global) -> Self
        ensures { result ≡ [] }
    {
        SeenNumbers {
            numbers: IndexMap::new(alloc),
        }
    }

    /// Whether no number that came before is this one.
    pub fn is_new(&self, n: i64) -> bool
        ensures { result ≡ list_all (λ e. not (is_same_number e n)) self.now }
    {
        self.numbers.get(&n).is_none()
    }

    /// Notes a number, and tells whether it is new.
    pub fn add(&mut self, n: i64) -> Result<bool, NoMemory>
        ensures new { IfOk result (λ new. new ≡ list_all (λ e. not (is_same_number e n)) self.old) }
        ensures noted { IfOk result (λ new. self.new ≡ (if new then self.old ++ n ∷ [] else self.old)) }
    {
        let new = self.is_new(n);
        if new {
            self.numbers.insert(n, 0)?;
        }
        Ok(new)
    }
}

/// Notes a number that is right by itself and new, and tells whether it is.
pub fn note_number(seen: &mut SeenNumbers, allowed: bool, n: i64) -> Result<bool, NoMemory>
    ensures { IfOk result (IsNextNumber allowed seen.old seen.new n) }
{
    if !allowed {
        return Ok(false);
    }
    seen.add(n)
}

//! Calls that fail at given numbers.

ghost use Rattle.std.specs.Prelude.{◌≡◌, ◌≤◌};
ghost use Rattle.ads_outside.specs.FailingCalls.{none_made, fails_next, fails_later, called, faulted};
ghost use Rattle.ads_outside.specs.Rose.{raised};

use ads_base::Calls;
use std::marker::Model;

/// Counts the calls of an object in memory, and says which are to fail.
#[derive(Drop)]
pub struct Failing {
    fails: Calls,
    calls: u64,
    faults: u64,
}

impl Model for Failing {
    ghost use Rattle.ads_outside.specs.FailingCalls.{FailingCalls};

    ghost Value = { FailingCalls };

    ghost view = { λ f. record { fails = f.fails; calls = f.calls; faults = f.faults } };
}

impl Failing {
    /// No call was made.
    pub fn new(fails: Calls) -> Self
        ensures { result ≡ none_made fails }
    {
        Failing {
            fails,
            calls: 0,
            faults: 0,
        }
    }

    /// How many calls failed.
    pub fn faults(&self) -> u64
        ensures { result ≡ self.now.faults }
    {
        self.faults
    }

    /// The number of the next call.
    pub fn next_call(&self) -> u64
        ensures { result ≡ raised self.now.calls }
    {
        self.calls.saturating_add(1)
    }

    /// Whether the next call is to fail.
    pub fn fails_next(&self) -> bool
        ensures { result ≡ fails_next self.now }
    {
        self.fails.as_slice().contains(&self.next_call())
    }

    /// Whether a later call is to fail.
    pub fn fails_later(&self) -> bool
        ensures { result ≡ fails_later self.now }
    {
        let calls = self.calls;
        self.fails.as_slice().iter().any(|n| calls < *n)
    }

    /// One more call was made.
    pub fn call(&mut self)
        ensures { self.new ≡ called self.old }
    {
        self.calls = self.calls.saturating_add(1);
    }

    /// One more call was made, and it was a fault.
    pub fn fault(&mut self)
        ensures faulted { self.new ≡ faulted self.old }
        ensures later { self.old.faults ≤ self.new.faults }
    {
        self.calls = self.calls.saturating_add(1);
        self.faults = self.faults.saturating_add(1);
    }
}

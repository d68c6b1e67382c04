//! A stop in memory, for tests.

ghost use Rattle.std.specs.Prelude.{◌≡◌, ◌≤◌, is_some};

use crate::{Stop, StopCause};
use std::marker::Model;

/// Asks for an end from a given look on.
#[derive(Drop)]
pub struct MemStop {
    from_look: u64,
    looks: u64,
    asks: u64,
}

impl Model for MemStop {
    ghost use Rattle.daemon_outside.specs.MemStop.{HeldStop};

    ghost Value = { HeldStop };

    ghost view = { λ s. record { from_look = s.from_look; looks = s.looks; asks = s.asks } };
}

impl MemStop {
    ghost use Rattle.daemon_outside.specs.MemStop.{not_looked_at};

    /// It asks from the look with this number on, counted from 1.
    pub fn new(from_look: u64) -> MemStop
        ensures { result ≡ not_looked_at from_look }
    {
        MemStop {
            from_look,
            looks: 0,
            asks: 0,
        }
    }

    /// How often it was looked at.
    pub fn looks(&self) -> u64
        ensures { result ≡ self.now.looks }
    {
        self.looks
    }
}

impl Stop for MemStop {
    ghost use Rattle.ads_outside.specs.Rose.{raised};
    ghost use Rattle.daemon_outside.specs.MemStop.{asks_next, looked_at};
    ghost use Rattle.daemon_outside.specs.Stops.{raised_if};

    ghost looks = { λ s. s.looks };

    ghost asked = { λ s. s.asks };

    fn look(&mut self) -> Option<StopCause>
        ensures looks { self.new.looks ≡ raised self.old.looks }
        ensures asked { self.new.asks ≡ raised_if (is_some result) self.old.asks }
        ensures later { self.old.asks ≤ self.new.asks }
        ensures answer { is_some result ≡ asks_next self.old }
        ensures counted { self.new ≡ looked_at self.old }
    {
        self.looks = self.looks.saturating_add(1);
        if self.looks < self.from_look {
            return None;
        }
        self.asks = self.asks.saturating_add(1);
        Some(StopCause::Terminate)
    }
}

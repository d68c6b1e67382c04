//! A signal of two levels.
ghost use Rattle.std.specs.Prelude.{◌≡◌, ◌≢◌, ◌<◌, ◌*◌, ◌++◌, replicate};

use crate::place::place_after;
use crate::signal::Signal;

/// One value for a while and another for as long, again and again.
#[derive(Drop)]
pub struct Square {
    low: u64,
    high: u64,
    half: u32,
    place: u64,
    ghost within: { place < 2 * half },
}

impl Square {
    /// A square wave at its beginning: `half` times `low`, then `half` times `high`.
    pub fn new(low: u64, high: u64, half: u32) -> Square
        requires { half ≢ 0 }
        ensures { ⟦<Square as Signal>⟧.wave result
            ≡ record { values = replicate half low ++ replicate half high; place = 0 } }
    {
        Square {
            low,
            high,
            half,
            place: 0,
        }
    }
}

impl Signal for Square {
    ghost use Rattle.std.proofs.Common.{rules};
    ghost use Rattle.std.proofs.lemmas.Grind.{common_steps};

    ghost wave = { λ s. record { values = replicate s.half s.low ++ replicate s.half s.high; place = s.place } };

    ghost is_wave = { λ s. Prim.search (rules, common_steps) };

    fn step(&mut self) -> u64 {
        let half = u64::from(self.half);
        let value = if self.place < half {
            self.low
        } else {
            self.high
        };
        self.place = place_after(self.place, 2 * half);
        value
    }
}

//! A signal that counts its drops.

use signals::Signal;
use std::cell::Cell;
use std::rc::Rc;

/// A signal that is 0 at each tick, and a count of drops that it shares.
pub struct Counted {
    pub drops: Rc<Cell<u64>>,
}

impl Signal for Counted {
    ghost use Rattle.std.specs.Prelude.{[], ◌∷◌};
    ghost use Rattle.std.proofs.Math.Nat.{zero-lt-suc};

    ghost wave = { λ c. record { values = 0 ∷ []; place = 0 } };

    ghost is_wave = { λ c. zero-lt-suc 0 };

    fn step(&mut self) -> u64 {
        0
    }
}

impl Drop for Counted {
    fn drop(self) {
        let Counted { drops } = self;
        drops.set(drops.get().saturating_add(1));
    }
}

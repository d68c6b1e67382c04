//! Nobody stands beside a loop.

use crate::{Beside, Go};
use ads_outside::{Event, Wire};
use ads_served::Served;
use std::alloc::Global;

/// Nobody: is told nothing, and ends no loop.
#[derive(Clone, Copy, Debug)]
pub struct Nobody;

impl<M: Served, O> Beside<M, O> for Nobody {
    ghost Kept = { Unit {0} };

    ghost seen = { λ _ _ _ _ _ _. Unit {0} };

    ghost ready = { λ _ _ _. Unit {0} };

    ghost stopped = { λ _ _ _ _ _. ⊥ };

    ghost asks = { ⊥ };

    fn came(&mut self, _alloc: Global, _served: &M, _event: &Event, _outcome: &M::Came) {}

    fn ticked<W: Wire>(&mut self, _alloc: Global, _served: &M, _wire: &W, _outside: &mut O) -> Go {
        Go::On
    }

    ghost begins = { λ _ _ _ _. (tt, tt) };

    ghost fewer = { λ _ _ _ _. tt };
}

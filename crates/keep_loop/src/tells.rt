//! Who is told of events, beside a loop without a store.

ghost use Rattle.std.specs.Prelude.{◌≡◌, ◌≤◌};
ghost use Rattle.serve_loop.specs.TurnTaken.{AfterServe};
ghost use Rattle.serve_loop.specs.Wanting.{WasWanting};

use crate::Told;
use ads_outside::{End, Event, Wire};
use ads_served::Served;
use serve_loop::{Beside, Go, LoopEnd, serve_beside};
use std::alloc::Global;
use std::thread::Threads;

/// Tells what comes of events, and saves nothing.
#[derive(Drop)]
pub(crate) struct Tells<N: Drop> {
    pub(crate) told: N,
}

impl<M: Served, O, N: Told<M> + Drop> Beside<M, O> for Tells<N> {
    ghost Kept = { Unit {0} };

    ghost seen = { λ _ _ _ _ _ _. Unit {0} };

    ghost ready = { λ _ _ _. Unit {0} };

    ghost stopped = { λ _ _ _ _ _. ⊥ };

    ghost told = { λ t cames. N.heard t.told cames };

    ghost asks = { ⊥ };

    fn comes(&mut self, alloc: Global, served: &M, event: &Event) {
        self.told.comes(alloc, served, event);
    }

    fn came(&mut self, alloc: Global, served: &M, event: &Event, outcome: &M::Came) {
        self.told.came(alloc, served, event, outcome);
    }

    fn ticked<W: Wire>(&mut self, _alloc: Global, _served: &M, _wire: &W, _outside: &mut O) -> Go {
        Go::On
    }

    ghost begins = { λ _ _ _ _. (tt, tt) };

    ghost fewer = { λ _ _ _ _. tt };
}

/// Serves a wire as `serve` does, and tells what each event comes to.
pub fn serve_telling<T: Threads + Sync, W: Wire, M: Served, N: Told<M> + Drop>(
    rt: &T,
    alloc: Global,
    served: &mut M,
    wire: &mut W,
    told: N,
    limit: u64,
) -> End
    ensures serve { AfterServe result M.steps M.noted (M.serves served.old) (M.serves served.new) (W.state wire.old) (W.state wire.new) limit }
    ensures kept { W.kept wire.new ≡ W.kept wire.old }
    ensures later { (W.state wire.old).faults ≤ (W.state wire.new).faults }
    ensures wanted { (W.state wire.old).wants ≤ (W.state wire.new).wants }
    ensures memory { result ≡ End.Memory → WasWanting (M.has_failed served.new) (W.state wire.old) (W.state wire.new) }
{
    let mut tells = Tells { told };
    match serve_beside(rt, alloc, served, wire, &mut tells, &mut (), limit) {
        LoopEnd::Ended(how) => how,
        LoopEnd::Stopped => unreachable!(),
    }
}

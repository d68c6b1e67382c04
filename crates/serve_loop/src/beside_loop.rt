//! The loop beside which something stands.

ghost use Rattle.std.specs.Prelude.{◌≡◌, ◌≢◌, ◌≤◌, ◌+◌, ℕ, List};
ghost use Rattle.ads_outside.specs.declared.end.End.TheVariants as end;
ghost use Rattle.ads_outside.specs.WireState.{WireHistory};
ghost use Rattle.serve_loop.specs.Beside.{AfterLoop, AfterTurnBeside, ShowsStopped, StopsTurn};
ghost use Rattle.serve_loop.specs.Looks.{Look, IsBodyOf};
ghost use Rattle.serve_loop.specs.Telling.{TellsLoop, TellsTurned};
ghost use Rattle.serve_loop.specs.TurnTaken.{StandsForSome, StandsOver};
ghost use Rattle.serve_loop.specs.Wanting.{WasWanting};

use crate::turn_end::Turn;
use crate::turning::turn_with;
use crate::{Beside, Go, LoopEnd};
use ads_outside::{End, Wire};
use ads_served::Served;
use std::alloc::Global;
use std::thread::Threads;

/// How a turn ended, with what stands beside it.
#[derive(Clone, Copy, Debug, PartialEq, Eq)]
pub(crate) enum Turned {
    /// It is over, and the loop goes on.
    On,
    /// It is over, and what stands beside it ends the loop.
    Stopped,
    /// The wire has no more events.
    End,
    /// The wire failed to give an event.
    LinkFault,
    /// Memory was wanting.
    Memory,
}

/// Serves a wire as `serve` does, and shows what is served behind each turn with a tick.
pub fn serve_beside<T: Threads + Sync, W: Wire, M: Served, O, A: Beside<M, O>>(
    rt: &T,
    alloc: Global,
    served: &mut M,
    wire: &mut W,
    beside: &mut A,
    outside: &mut O,
    limit: u64,
) -> LoopEnd
    requires some { A.asks → StandsForSome (StandsOver (M.serves served.old) (W.state wire.old).history.opened) }
    requires ready { A.ready limit beside.old outside.old }
    ensures serve { AfterLoop result M.body_of M.steps M.noted (M.serves served.old) (M.serves served.new) (W.state wire.old) (W.state wire.new)
        limit (A.seen beside.old outside.old beside.new outside.new) }
    ensures stopped { result ≡ LoopEnd.Stopped → ShowsStopped M.body_of M.steps M.noted M.serves (M.serves served.old) (M.serves served.new)
        (W.state wire.old).history (W.state wire.new).history limit (λ (mid : A) (there : O). A.seen beside.old outside.old mid there)
        (λ (mid : A) (there : O). A.stopped mid there beside.new outside.new (IsBodyOf M.body_of (M.serves served.new))) }
    ensures ready { result ≢ LoopEnd.Stopped → A.ready 0 beside.new outside.new }
    ensures kept { W.kept wire.new ≡ W.kept wire.old }
    ensures later { (W.state wire.old).faults ≤ (W.state wire.new).faults }
    ensures wanted { (W.state wire.old).wants ≤ (W.state wire.new).wants }
    ensures memory { result ≡ LoopEnd.Ended end.Memory → WasWanting (M.has_failed served.new) (W.state wire.old) (W.state wire.new) }
    // It was told what each event came to.
    ensures told { TellsLoop result M.comes_to M.steps M.noted (M.serves served.old) (W.state wire.old) (W.state wire.new)
        (A.told beside.old) (A.told beside.new) }
{
    let mut numbers = Vec::new(alloc);
    for _taken in 0..limit {
        match turn_beside(rt, alloc, served, wire, beside, outside, &mut numbers) {
            Turned::On => {}
            Turned::Stopped => return LoopEnd::Stopped,
            Turned::End => return LoopEnd::Ended(End::Done),
            Turned::LinkFault => return LoopEnd::Ended(End::LinkFault),
            Turned::Memory => return LoopEnd::Ended(End::Memory),
        }
    }
    LoopEnd::Ended(End::Budget)
}

// One turn; behind one with a tick what is served is shown.
fn turn_beside<T: Threads + Sync, W: Wire, M: Served, O, A: Beside<M, O>>(
    rt: &T,
    alloc: Global,
    served: &mut M,
    wire: &mut W,
    beside: &mut A,
    outside: &mut O,
    numbers: &mut Vec<u32>,
) -> Turned
    requires some { A.asks → StandsForSome (StandsOver (M.serves served.old) (W.state wire.old).history.opened) }
    requires ready { A.ready 1 beside.old outside.old }
    ensures turn { AfterTurnBeside result M.body_of M.steps M.noted (M.serves served.old) (M.serves served.new) (W.state wire.old) (W.state wire.new)
        (λ (first : A) (start : O). A.seen first start beside.old outside.old) (λ (first : A) (start : O). A.seen first start beside.new outside.new) }
    ensures stopped { result ≡ Turned.Stopped → StopsTurn M.steps M.noted (M.serves served.old) (M.serves served.new)
        (W.state wire.old).history (W.state wire.new).history (λ (first : A) (start : O). A.seen first start beside.old outside.old)
        (λ (mid : A) (first : A) (start : O). A.seen first start mid outside.old)
        (λ (mid : A). A.stopped mid outside.old beside.new outside.new (IsBodyOf M.body_of (M.serves served.new))) }
    ensures ready { result ≢ Turned.Stopped → (n : ℕ) → A.ready (n + 1) beside.old outside.old → A.ready n beside.new outside.new }
    ensures told { TellsTurned result M.comes_to M.steps M.noted (M.serves served.old) (M.serves served.new)
        (W.state wire.old).history (W.state wire.new).history (A.told beside.old) (A.told beside.new) }
    ensures kept { W.kept wire.new ≡ W.kept wire.old }
    ensures later { (W.state wire.old).faults ≤ (W.state wire.new).faults }
    ensures wanted { (W.state wire.old).wants ≤ (W.state wire.new).wants }
    ensures memory { result ≡ Turned.Memory → WasWanting (M.has_failed served.new) (W.state wire.old) (W.state wire.new) }
{
    match turn_with::<T, W, M, O, A>(rt, alloc, served, wire, beside, numbers) {
        Turn::Tick => match beside.ticked(alloc, served, wire, outside) {
            Go::On => Turned::On,
            Go::Stop => Turned::Stopped,
        },
        Turn::Other => Turned::On,
        Turn::End => Turned::End,
        Turn::LinkFault => Turned::LinkFault,
        Turn::Memory => Turned::Memory,
    }
}

//! One turn: an event is taken, and then each connection is offered what waits for it.

ghost use Rattle.std.specs.Prelude.{◌≡◌, ◌≤◌, ℕ, OnOk, OnErr};
ghost use Rattle.ads_outside.specs.declared.moves.Move.TheVariants as move;
ghost use Rattle.ads_outside.specs.WireState.{WireHistory};
ghost use Rattle.spec_machine.specs.Running.{OpensNew};
ghost use Rattle.ads_served.specs.Standing.{Standing, standing_after};
ghost use Rattle.serve_loop.specs.Beside.{StaysSeen};
ghost use Rattle.serve_loop.specs.Leads.{Leads, Breaks};
ghost use Rattle.serve_loop.specs.Serving.{ServesAll};
ghost use Rattle.serve_loop.specs.Telling.{StaysTold, Hears, HearsOrNot, TellsTurn};
ghost use Rattle.serve_loop.specs.TurnTaken.{ComesBy, AfterTurn, turn_of_event};
ghost use Rattle.serve_loop.specs.Wanting.{WasWanting};

use crate::rounds::serve_each;
use crate::turn_end::Turn;
use crate::{Beside, Nobody};
use ads_base::NoMemory;
use ads_outside::{Event, Next, Wire};
use ads_served::Served;
use std::alloc::Global;
use std::thread::Threads;

/// Takes one event of the wire, and offers each connection, in the order of opening, what waits for it, until it is
/// taken or the connection is blocked. A failed offer loses that connection alone; one that is closing is then shut.
pub fn turn<T: Threads + Sync, W: Wire, M: Served>(
    rt: &T,
    alloc: Global,
    served: &mut M,
    wire: &mut W,
) -> Turn
    ensures turn { AfterTurn result M.steps M.noted (M.serves served.old) (M.serves served.new) (W.state wire.old) (W.state wire.new) }
    ensures kept { W.kept wire.new ≡ W.kept wire.old }
    ensures later { (W.state wire.old).faults ≤ (W.state wire.new).faults }
    ensures wanted { (W.state wire.old).wants ≤ (W.state wire.new).wants }
    ensures memory { result ≡ Turn.Memory → WasWanting (M.has_failed served.new) (W.state wire.old) (W.state wire.new) }
{
    let mut numbers = Vec::new(alloc);
    turn_with::<T, W, M, (), Nobody>(rt, alloc, served, wire, &mut Nobody, &mut numbers)
}

/// The same, with what stands beside a loop, and room for the numbers of the connections that are to be served.
pub(crate) fn turn_with<T: Threads + Sync, W: Wire, M: Served, O, A: Beside<M, O>>(
    rt: &T,
    alloc: Global,
    served: &mut M,
    wire: &mut W,
    beside: &mut A,
    numbers: &mut Vec<u32>,
) -> Turn
    ensures turn { AfterTurn result M.steps M.noted (M.serves served.old) (M.serves served.new) (W.state wire.old) (W.state wire.new) }
    ensures kept { W.kept wire.new ≡ W.kept wire.old }
    ensures later { (W.state wire.old).faults ≤ (W.state wire.new).faults }
    ensures wanted { (W.state wire.old).wants ≤ (W.state wire.new).wants }
    ensures memory { result ≡ Turn.Memory → WasWanting (M.has_failed served.new) (W.state wire.old) (W.state wire.new) }
    ensures seen { (outside : O) → StaysSeen (λ (first : A) (start : O). A.seen first start beside.old outside)
        (λ (first : A) (start : O). A.seen first start beside.new outside) }
    ensures ready { (n : ℕ) (outside : O) → A.ready n beside.old outside → A.ready n beside.new outside }
    ensures told { TellsTurn result M.comes_to M.steps M.noted (M.serves served.old) (M.serves served.new)
        (W.state wire.old).history (W.state wire.new).history (A.told beside.old) (A.told beside.new) }
{
    let event = match wire.next() {
        Next::Event(event) => event,
        Next::End => return Turn::End,
        Next::Failed => return Turn::LinkFault,
        Next::Memory => return Turn::Memory,
    };
    match take_event::<T, W, M, O, A>(rt, alloc, served, wire, beside, &event, numbers) {
        Ok(()) => give_back(wire, event),
        Err(NoMemory) => Turn::Memory,
    }
}

// The event goes back to the wire. What is told of a turn with it.
fn give_back<W: Wire>(wire: &mut W, event: Event) -> Turn
    ensures told { result ≡ turn_of_event event }
    ensures same { W.state wire.new ≡ W.state wire.old }
    ensures kept { W.kept wire.new ≡ W.kept wire.old }
{
    let told = told_of(&event);
    wire.take_back(event);
    told
}

// What is told of a turn with this event.
fn told_of(event: &Event) -> Turn
    ensures { result ≡ turn_of_event event.now }
{
    match event {
        Event::Tick(_) => Turn::Tick,
        Event::Opened(_)
        | Event::Piece(_, _)
        | Event::Closed(_)
        | Event::Reload(_)
        | Event::Writable(_) => Turn::Other,
    }
}

// An event that the wire gave is taken, and all connections are served.
fn take_event<T: Threads + Sync, W: Wire, M: Served, O, A: Beside<M, O>>(
    rt: &T,
    alloc: Global,
    served: &mut M,
    wire: &mut W,
    beside: &mut A,
    event: &Event,
    numbers: &mut Vec<u32>,
) -> Result<(), NoMemory>
    ensures ok { OnOk result (Leads M.steps M.noted (ComesBy M.steps M.noted (M.serves served.old) event.now)
        (M.serves served.new) (W.state wire.old).history (W.state wire.new).history 0 (ServesAll M.steps)) }
    ensures no_memory { OnErr result (Breaks M.steps M.noted (ComesBy M.steps M.noted (M.serves served.old) event.now)
        (W.state wire.old).history (W.state wire.new).history 0) }
    ensures kept { W.kept wire.new ≡ W.kept wire.old }
    ensures later { (W.state wire.old).faults ≤ (W.state wire.new).faults }
    ensures wanted { (W.state wire.old).wants ≤ (W.state wire.new).wants }
    ensures memory { OnErr result (WasWanting (M.has_failed served.new) (W.state wire.old) (W.state wire.new)) }
    ensures seen { (outside : O) → StaysSeen (λ (first : A) (start : O). A.seen first start beside.old outside)
        (λ (first : A) (start : O). A.seen first start beside.new outside) }
    ensures ready { (n : ℕ) (outside : O) → A.ready n beside.old outside → A.ready n beside.new outside }
    ensures told { OnOk result (Hears M.comes_to (M.serves served.old) event.now (A.told beside.old) (A.told beside.new)) }
    ensures untold { OnErr result (HearsOrNot M.comes_to (M.serves served.old) event.now
        (W.state wire.old).history (W.state wire.new).history (A.told beside.old) (A.told beside.new)) }
{
    step_beside::<T, M, O, A>(rt, alloc, served, beside, event)?;
    served.due(alloc, numbers)?;
    serve_each(served, wire, numbers.as_slice())?;
    Ok(())
}

// An event is taken. What stands beside hears of it before, and behind it what it came to.
fn step_beside<T: Threads + Sync, M: Served, O, A: Beside<M, O>>(
    rt: &T,
    alloc: Global,
    served: &mut M,
    beside: &mut A,
    event: &Event,
) -> Result<(), NoMemory>
    ensures follows { OnOk result ((x : Standing M.World M.Client) → M.serves served.old x → OpensNew x.running event.now
        → M.serves served.new (standing_after M.steps M.noted x (move.Event event.now))) }
    ensures no_memory { OnErr result (M.has_failed served.new) }
    ensures seen { (outside : O) → StaysSeen (λ (first : A) (start : O). A.seen first start beside.old outside)
        (λ (first : A) (start : O). A.seen first start beside.new outside) }
    ensures ready { (n : ℕ) (outside : O) → A.ready n beside.old outside → A.ready n beside.new outside }
    ensures told { OnOk result (Hears M.comes_to (M.serves served.old) event.now (A.told beside.old) (A.told beside.new)) }
    ensures untold { OnErr result (StaysTold (A.told beside.old) (A.told beside.new)) }
{
    beside.comes(alloc, served, event);
    let outcome = served.step(rt, alloc, event)?;
    beside.came(alloc, served, event, &outcome);
    Ok(())
}

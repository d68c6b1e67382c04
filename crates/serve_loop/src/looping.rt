//! The loop with nobody beside it.

ghost use Rattle.std.specs.Prelude.{◌≡◌, ◌≢◌, ◌≤◌};
ghost use Rattle.ads_outside.specs.Rose.{Rose, raised};
ghost use Rattle.ads_served.specs.Standing.{Standing};
ghost use Rattle.serve_loop.specs.ToldLog.{WhereTold, LogsOffers, LogsTurns};
ghost use Rattle.serve_loop.specs.ToldStreams.{StreamsOfTurns};
ghost use Rattle.serve_loop.specs.TurnTaken.{StandsOver, AfterServe, GaveEvents};
ghost use Rattle.serve_loop.specs.Wanting.{WasWanting};

use crate::{LoopEnd, Nobody, serve_beside};
use ads_outside::{End, Wire};
use ads_served::Served;
use std::alloc::Global;
use std::thread::Threads;

/// Serves a wire: takes its events one after another, each with what follows from it, at most so many.
pub fn serve<T: Threads + Sync, W: Wire, M: Served>(
    rt: &T,
    alloc: Global,
    served: &mut M,
    wire: &mut W,
    limit: u64,
) -> End
    // What it led to, whether the log is told or not.
    ensures serve { AfterServe result M.steps M.noted (M.serves served.old) (M.serves served.new) (W.state wire.old) (W.state wire.new) limit }
    // Where the log is told: each event is followed by the offers to each connection, and what is served follows.
    ensures turns { result ≢ End.Memory → (x : Standing M.World M.Client) → StandsOver (M.serves served.old) (W.state wire.old).history.opened x
        → WhereTold (W.state wire.old).history.log (λ log. LogsTurns M.steps M.noted (M.serves served.new) x log (W.state wire.new).history.log) }
    ensures offers { (x : Standing M.World M.Client) → StandsOver (M.serves served.old) (W.state wire.old).history.opened x
        → WhereTold (W.state wire.old).history.log (λ log. LogsOffers M.steps x.running.state log (W.state wire.new).history.log) }
    // Where the streams are told: each connection took what it takes in such moves.
    ensures streams { (x : Standing M.World M.Client) → StandsOver (M.serves served.old) (W.state wire.old).history.opened x
        → WhereTold (W.state wire.old).history.streams (λ streams. StreamsOfTurns result M.steps M.noted (M.serves served.new) x streams
        (W.state wire.new).history.streams) }
    // Why it ended.
    ensures events { GaveEvents result (W.state wire.old).history (W.state wire.new).history limit }
    ensures done { result ≡ End.Done → (W.state wire.new).history.ends ≡ raised (W.state wire.old).history.ends }
    ensures not_done { result ≢ End.Done → (W.state wire.new).history.ends ≡ (W.state wire.old).history.ends }
    ensures link_fault { result ≡ End.LinkFault → Rose (W.state wire.old).history.stops (W.state wire.new).history.stops }
    ensures no_link_fault { result ≢ End.LinkFault → (W.state wire.new).history.stops ≡ (W.state wire.old).history.stops }
    ensures kept { W.kept wire.new ≡ W.kept wire.old }
    ensures later { (W.state wire.old).faults ≤ (W.state wire.new).faults }
    ensures wanted { (W.state wire.old).wants ≤ (W.state wire.new).wants }
    ensures memory { result ≡ End.Memory → WasWanting (M.has_failed served.new) (W.state wire.old) (W.state wire.new) }
{
    let ended = serve_alone(rt, alloc, served, wire, limit);
    ended
}

// The same, with nobody beside the loop.
fn serve_alone<T: Threads + Sync, W: Wire, M: Served>(
    rt: &T,
    alloc: Global,
    served: &mut M,
    wire: &mut W,
    limit: u64,
) -> End
    ensures serve { AfterServe result M.steps M.noted (M.serves served.old) (M.serves served.new) (W.state wire.old) (W.state wire.new) limit }
    ensures kept { W.kept wire.new ≡ W.kept wire.old }
    ensures later { (W.state wire.old).faults ≤ (W.state wire.new).faults }
    ensures wanted { (W.state wire.old).wants ≤ (W.state wire.new).wants }
    ensures memory { result ≡ End.Memory → WasWanting (M.has_failed served.new) (W.state wire.old) (W.state wire.new) }
{
    match serve_beside(rt, alloc, served, wire, &mut Nobody, &mut (), limit) {
        LoopEnd::Ended(how) => how,
        LoopEnd::Stopped => unreachable!(),
    }
}

//! The relay's loop.

ghost use Rattle.std.specs.Prelude.{◌≡◌, ◌≢◌, ◌≤◌};
ghost use Rattle.ads_outside.specs.Rose.{Rose, raised};
ghost use Rattle.serve_loop.specs.ToldLog.{WhereTold, LogsOffers, LogsTurns};
ghost use Rattle.serve_loop.specs.ToldStreams.{StreamsOfTurns};
ghost use Rattle.serve_loop.specs.TurnTaken.{StandsOver, AfterServe, GaveEvents};
ghost use Rattle.serve_loop.specs.Wanting.{WasWanting};
ghost use Rattle.spec_plant.specs.Description.{Description};
ghost use Rattle.spec_relay.specs.RelayState.{relay_start};
ghost use Rattle.spec_relay.specs.RelayMoves.{relay_after_event};
ghost use Rattle.ams_relay.specs.Relays.{RelayStanding, StandsAt, HasFailed, LogsPromises, nothing_noted, standing_at_start};

use crate::Relay;
use ads_outside::{End, Wire};
use serve_loop::serve;
use std::alloc::Global;
use std::thread::Threads;

/// Serves a wire with a relay: takes its events one after another, each with what follows from it, at most so many.
pub fn relay<T: Threads + Sync, W: Wire>(
    rt: &T,
    alloc: Global,
    r: &mut Relay,
    wire: &mut W,
    limit: u64,
) -> End
    // What it led to, whether the log is told or not.
    ensures serve { AfterServe result relay_after_event nothing_noted (StandsAt r.old) (StandsAt r.new) (W.state wire.old) (W.state wire.new) limit }
    // Where the log is told: each event is followed by the offers to each connection, and the relay follows.
    ensures turns { result ≢ End.Memory → (x : RelayStanding) → StandsOver (StandsAt r.old) (W.state wire.old).history.opened x
        → WhereTold (W.state wire.old).history.log (λ log. LogsTurns relay_after_event nothing_noted (StandsAt r.new) x log (W.state wire.new).history.log) }
    ensures offers { (x : RelayStanding) → StandsOver (StandsAt r.old) (W.state wire.old).history.opened x
        → WhereTold (W.state wire.old).history.log (λ log. LogsOffers relay_after_event x.running.state log (W.state wire.new).history.log) }
    // Where the streams are told: each connection took what it takes in such moves.
    ensures streams { (x : RelayStanding) → StandsOver (StandsAt r.old) (W.state wire.old).history.opened x
        → WhereTold (W.state wire.old).history.streams (λ streams. StreamsOfTurns result relay_after_event nothing_noted (StandsAt r.new) x streams
        (W.state wire.new).history.streams) }
    // What the moves promise of a relay that had no connection yet.
    ensures promises { (d : Description) → StandsOver (StandsAt r.old) (W.state wire.old).history.opened (standing_at_start (relay_start d))
        → WhereTold (W.state wire.old).history.log (λ log. LogsPromises result d log (W.state wire.new).history.log) }
    // Why it ended.
    ensures events { GaveEvents result (W.state wire.old).history (W.state wire.new).history limit }
    ensures done { result ≡ End.Done → (W.state wire.new).history.ends ≡ raised (W.state wire.old).history.ends }
    ensures not_done { result ≢ End.Done → (W.state wire.new).history.ends ≡ (W.state wire.old).history.ends }
    ensures link_fault { result ≡ End.LinkFault → Rose (W.state wire.old).history.stops (W.state wire.new).history.stops }
    ensures no_link_fault { result ≢ End.LinkFault → (W.state wire.new).history.stops ≡ (W.state wire.old).history.stops }
    ensures kept { W.kept wire.new ≡ W.kept wire.old }
    ensures later { (W.state wire.old).faults ≤ (W.state wire.new).faults }
    ensures wanted { (W.state wire.old).wants ≤ (W.state wire.new).wants }
    ensures memory { result ≡ End.Memory → WasWanting (HasFailed r.new) (W.state wire.old) (W.state wire.new) }
{
    serve(rt, alloc, r, wire, limit)
}

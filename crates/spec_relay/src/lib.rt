//! The relay's machine: a router between connections, over the moves of a server's log. Its definitions stand in specs/,
//! and its laws below.
#![tactic(auto)]

ghost use Rattle.std.specs.Prelude.{List};
ghost use Rattle.spec_plant.specs.Description.{Description};
ghost use Rattle.spec_machine.specs.ScriptLine.{ScriptLine};
ghost use Rattle.ads_served.specs.Opened.{OpensAlone};
ghost use Rattle.spec_relay.specs.RelayMoves.{relay_after_event};
ghost use Rattle.spec_relay.specs.RelayLaws.{GivesPassages, TakesInOrder, AnswersEachOnce, PassesByMark};
ghost use Rattle.spec_relay.specs.RelayLaws.{RelayOnlyAdds, RelayKeepsThere, RelayDelivers, RelayDeliversAll};
ghost use Rattle.spec_relay.specs.RelayPromises.{TurnsKeepPromises, OffersKeepPromises, RelayPlayKeepsPromises};

/// What a connection is given is what passages bring to it: frames unchanged, those of each sender in its order, each once.
pub fn frames_pass_unchanged()
    ensures given { GivesPassages }
    ensures taken { TakesInOrder }
{}

/// A response reaches no connection but the one whose request it answers, and no request is answered twice.
pub fn responses_reach_askers()
    ensures once { AnswersEachOnce }
    ensures marked { PassesByMark }
{}

/// An event of the relay only adds to what connections are given, and keeps them there. Where a log keeps the turns, what
/// a connection took begins what the relay gave it; and it is all of that, unless its last offer was short, or the
/// connection was closed by its peer or lost.
pub fn relay_delivers()
    ensures adds { RelayOnlyAdds }
    ensures there { RelayKeepsThere }
    ensures begins { RelayDelivers }
    ensures all { RelayDeliversAll }
{}

/// What a relay promises, in one: of a log that keeps the turns, of one whose offers are whole, and of the play of each
/// script over each description.
pub fn relay_keeps_promises()
    ensures turns { TurnsKeepPromises }
    ensures offers { OffersKeepPromises }
    ensures play { (d : Description) (lines : List ScriptLine) → RelayPlayKeepsPromises d lines }
{}

/// An event of the relay brings no connection but the one that it opens.
pub fn relay_opens_alone()
    ensures { OpensAlone relay_after_event }
{}

//! Laws of the server's machine over whole logs, over the definitions alone.
#![tactic(auto)]

ghost use Rattle.spec_laws.specs.Isolation.{IsIsolated, SeesOnlyItself, TakesAsAlone, TakesAllAsAlone};
ghost use Rattle.spec_laws.specs.ExactWrites.{ChangesOnlyByWrites, PutsAreExact, PutsBits, WritesByHandle};
ghost use Rattle.spec_laws.specs.Refusals.{RefusalChangesNothing, TurnedAwayChangesNothing, ResultChangesNothing};
ghost use Rattle.spec_laws.specs.Refusals.{RefusedReloadCounts, BadAdditionsAreRefused, DeadHandleTouchesNothing};
ghost use Rattle.spec_laws.specs.Refusals.{NumbersNeverFall};
ghost use Rattle.spec_laws.specs.Histories.{HandlesAreHistory};
ghost use Rattle.spec_laws.specs.Soundness.{AcceptedAreSound};
ghost use Rattle.spec_laws.specs.Reachable.{EveryStateFits};
ghost use Rattle.spec_laws.specs.Rising.{HandlesRise};
ghost use Rattle.spec_laws.specs.RepliesFit.{NoMoreThanAsked, RepliesFit};
ghost use Rattle.spec_laws.specs.Profiles.{KeepsProfile, StrictIsPlain, WritesArePlain};
ghost use Rattle.spec_laws.specs.Profiles.{WideReadsByHandle, WideReadsByName, WideModes, WideTypes, StrictSums, WideSums};
ghost use Rattle.spec_laws.specs.RightsLaws.{RoutesCountFirst, OthersShareOne, StrictKnowsRoutes};

/// A client none of whose read or notified bytes another client writes is given, byte for byte, what it
/// would be given if it were alone: for every table of what is answered, every description, every reading
/// of descriptions, all signals, and every log of the nine kinds of move. What it took of what it was offered begins that,
/// wherever the log ends; at the end of a turn it is all of that, unless its last offer was short, or it was closed by
/// its peer or lost.
pub fn clients_are_isolated()
    ensures alone { IsIsolated }
    ensures same_projection { SeesOnlyItself }
    ensures taken { TakesAsAlone }
    ensures all_taken { TakesAllAsAlone }
{}

/// A byte changes between two moves only by an accepted write or control that addresses it, by its
/// signal's step on a tick, or by an accepted reload; a put leaves its value there and all else as it
/// was; a bit's put leaves the other bits of its byte; and a write by handle is one of the first bytes of its place.
pub fn writes_are_exact()
    ensures changes { ChangesOnlyByWrites }
    ensures puts { PutsAreExact }
    ensures bits { PutsBits }
    ensures handles { WritesByHandle }
{}

/// A request whose result is not 0 leaves the bytes and its client as they were; so does a packet whose reply tells
/// such a result, and one that gets an AMS error or no answer, or ends the connection; and a reload whose description is
/// refused leaves all but its count. An addition of a mode that the server does not know, of too many bytes or of none, or of a group that
/// additions do not have is refused.
pub fn refusals_change_nothing()
    ensures requests { RefusalChangesNothing }
    ensures results { ResultChangesNothing }
    ensures packets { TurnedAwayChangesNothing }
    ensures reloads { RefusedReloadCounts }
    ensures additions { BadAdditionsAreRefused }
{}

/// A read, a write or an addition by a handle that was never granted at this port, is released or is
/// outdated is refused with its code, unless a check that comes before refuses with another; so an access by it touches
/// nothing in any form.
pub fn dead_handles_touch_nothing()
    ensures { DeadHandleTouchesNothing }
{}

/// What a connection was granted and added only grows, so no number is given twice.
pub fn numbers_never_fall()
    ensures { NumbersNeverFall }
{}

/// In every state that a log leads to the status of a handle is what the grants, releases and reloads say that its
/// connection had in the log.
pub fn handles_are_history()
    ensures { HandlesAreHistory }
{}

/// In every state that a log leads to each byte of each area is there, each live handle lies within its
/// symbol, and each byte that a notification watches is there; where the first description is accepted
/// and the reading of descriptions gives accepted ones alone. A connection that is closing or gone is
/// not spoken of: no reload moves it any more.
pub fn every_state_fits()
    ensures descriptions { AcceptedAreSound }
    ensures states { EveryStateFits }
{}

/// In every state that a log leads to the notifications of each connection stand by rising handle, none
/// above the number of additions, and so do the samples of each frame that a tick would send.
pub fn handles_rise()
    ensures { HandlesRise }
{}

/// A Read and a ReadWrite, and each such part of a sum, is given at most as many bytes as it asks; and in
/// every state that a log leads to, where the first description is accepted and the reading of
/// descriptions gives accepted ones alone, each reply has at most 2,000,000 bytes of data.
pub fn replies_fit()
    ensures asked { NoMoreThanAsked }
    ensures replies { RepliesFit }
{}

/// A server keeps its profile over every log. To the strict one each request is what is written, and a write is so to
/// both. To the wide one a Read by a live handle and a ReadWrite by a name read their value and no byte beside it, however
/// much they ask, an addition in the context of a task is that without, and a ReadWrite by the text of a type gives its entry.
pub fn profiles_differ_in_meanings()
    ensures kept { KeepsProfile }
    ensures strict { StrictIsPlain }
    ensures writes { WritesArePlain }
    ensures by_handle { WideReadsByHandle }
    ensures by_name { WideReadsByName }
    ensures modes { WideModes }
    ensures types { WideTypes }
{}

/// The strict server knows no sum besides those of every server; to the wide one the sums of reads that tell their
/// lengths are sums too.
pub fn profiles_differ_in_sums()
    ensures strict { StrictSums }
    ensures wide { WideSums }
{}

/// A machine with a route has the rights of its route, whatever a server gives to all others; a machine without one has
/// theirs. The strict profile gives others nothing, so that rights are those of routes alone.
pub fn routes_count_first()
    ensures routes { RoutesCountFirst }
    ensures others { OthersShareOne }
    ensures strict { StrictKnowsRoutes }
{}

//! The server that the program is: its device is closed, and its laws have no premise that nobody can check.
#![tactic(auto)]

ghost use Rattle.spec_server.specs.ServerLaws.{ReadsDescriptions, TellsReloads, ServerPlaysInTurns};
ghost use Rattle.spec_server.specs.ServerLaws.{ServerIsIsolated, ServerTakesAsAlone};
ghost use Rattle.spec_server.specs.ServerLaws.{ServerStateFits, ServerRepliesFit, ServerRefusesDeadHandles};
ghost use Rattle.spec_server.specs.ProfileLaws.{ServerKeepsProfile, ServerIsStrict, EachPlaysInTurns};
ghost use Rattle.spec_server.specs.ProfileLaws.{EachIsIsolated, EachTakesAsAlone, EachStateFits, EachRepliesFit};
ghost use Rattle.spec_server.specs.TypeLaws.{NamedTypesAreListed};

/// Each description that the server reads is an accepted one; a reload of any other text is told its least broken rule
/// and the least item in it, or that it is no TOML document, and changes the count of refusals alone.
pub fn descriptions_are_read()
    ensures accepted { ReadsDescriptions }
    ensures told { TellsReloads }
{}

/// The play of a script keeps the turns: each event is followed by the offers to each connection.
pub fn scripts_are_played_in_turns()
    ensures { ServerPlaysInTurns }
{}

/// A client none of whose read or notified bytes another client writes is given, byte for byte, what it would be given
/// if it were alone; and what it took begins that, and is all of it unless its last offer was short, or it was closed by
/// its peer or lost.
pub fn clients_are_isolated()
    ensures alone { ServerIsIsolated }
    ensures taken { ServerTakesAsAlone }
{}

/// In every state that a log leads to from an accepted description, each byte of each area is there, each live handle
/// lies within its symbol, each byte that a notification watches is there, and each reply has at most 2,000,000 bytes of
/// data.
pub fn every_state_fits()
    ensures states { ServerStateFits }
    ensures replies { ServerRepliesFit }
{}

/// A read, a write and an addition by a handle that is not live are refused, each by its code.
pub fn dead_handles_touch_nothing()
    ensures { ServerRefusesDeadHandles }
{}

/// A server keeps its profile over every log, and that of the program `ads` is the strict one. The laws above hold of the
/// server of each profile.
pub fn each_profile_keeps_the_laws()
    ensures profile { ServerKeepsProfile }
    ensures strict { ServerIsStrict }
    ensures turns { EachPlaysInTurns }
    ensures alone { EachIsIsolated }
    ensures taken { EachTakesAsAlone }
    ensures states { EachStateFits }
    ensures replies { EachRepliesFit }
{}

/// By its name the wide server finds each type of the description, with its entry in the type upload.
pub fn types_are_found_by_texts()
    ensures { NamedTypesAreListed }
{}

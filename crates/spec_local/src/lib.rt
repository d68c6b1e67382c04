//! A client's call over the server in the same process: its definition stands in specs/, and laws of it below.
#![tactic(auto)]

ghost use Rattle.spec_local.specs.Laws.{LocalIsOver, CallsAreLocal, FirstPartsAreLogs, CallLogsBegin};

/// A call over a machine is the call over the answers that the machine gives, over every step of a machine with a world
/// of type `W` and clients of type `C`, and however the answers are cut.
pub fn local_call_is_over_answers<W, C>()
    ensures { LocalIsOver W C }
{}

/// A call over a link whose log is one of a machine is the local call over that machine, cut as the link's answers
/// were: so far as they came, and the whole of it where it is over. What is sent behind the last answer, or was not
/// sent any more, has no part in it.
pub fn calls_over_logs_are_local<W, C>()
    ensures { CallsAreLocal W C }
{}

/// The first part of a log of a machine is a log of it.
pub fn first_parts_are_logs<W, C>()
    ensures first { FirstPartsAreLogs W C }
    ensures call { CallLogsBegin W C }
{}

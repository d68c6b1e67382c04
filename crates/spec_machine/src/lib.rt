//! The server's machine: its definitions stand in specs/, and its laws below, over every device with
//! a world of type `W` and clients of type `C`.
#![tactic(auto)]

mod areas;

ghost use Rattle.spec_machine.specs.Delivery.{PlayKeepsTurns, OffersWhole, TakesOutput, TakesAll};
ghost use Rattle.spec_machine.specs.Output.{ServerOnlyAdds, ServerKeepsThere, NumbersOpenAgain};
ghost use Rattle.spec_machine.specs.Output.{OutputGrows, ClosingEnds, LimitsQueue};
ghost use Rattle.spec_machine.specs.HandleLaws.{StatusIsHistory, LimitsGrants, TablesAgree};
ghost use Rattle.spec_machine.specs.SumLaws.{RunsInTurn};

pub use areas::{
    areas_have_content, bytes_have_names, numbers_move_as_names, reads_are_of_the_image,
    signals_step_in_the_image, symbols_tell_who_writes, worlds_begin_with_images,
    worlds_hold_all_ports, writes_are_of_the_image,
};

/// Over any machine: the play of a script keeps the turns: each event is followed by the offers to each connection.
pub fn play_keeps_turns<W, C>()
    ensures { PlayKeepsTurns W C }
{}

/// Over any machine, where a log keeps the turns, up to any of its moves: each offer names the whole rest of the first
/// frame that waits, and what is taken of it begins it.
pub fn offers_are_whole<W, C>()
    ensures { OffersWhole W C }
{}

/// Over any machine whose events only add to what connections are given: what a connection took by such offers begins
/// what it was given, at any time. Where the log keeps the turns and events keep connections there, it is all of that,
/// unless its last offer was short, or the connection was closed by its peer or lost.
pub fn taken_is_output<W, C>()
    ensures begins { TakesOutput W C }
    ensures all { TakesAll W C }
{}

/// The server's machine is such a one over every device: its events only add to what connections are given, and keep
/// them there.
pub fn server_delivers<W, C>()
    ensures adds { ServerOnlyAdds W C }
    ensures there { ServerKeepsThere W C }
{}

/// A number that no connection that is there bears may be opened again once those that are gone are forgotten, and is
/// then a new connection; all that are there stay as they are.
pub fn numbers_open_again<W, C>()
    ensures { NumbersOpenAgain W C }
{}

/// What a connection was given grows only at its end; one that is closing or gone takes and produces
/// nothing more; and a frame that does not fit its queue is not produced and closes.
pub fn output_only_grows<W, C>()
    ensures grows { OutputGrows W C }
    ensures ends { ClosingEnds W C }
    ensures limit { LimitsQueue C }
{}

/// The status of a handle that is kept along is what the history of grants, releases and reloads says,
/// over any kind of place.
pub fn status_is_history<P>()
    ensures { StatusIsHistory P }
{}

/// A grant is refused exactly at 4,096 live handles or 4,294,967,295 granted ones, and else gives the
/// next number.
pub fn grants_by_limit()
    ensures { LimitsGrants }
{}

/// Handles and notifications over two kinds of place, as names and spans, go on to agree over a reload
/// whose moves agree, and the same notifications end.
pub fn tables_agree<P, Q>()
    ensures { TablesAgree P Q }
{}

/// The parts of a sum run one after another, each on the client and the bytes that the part before
/// left.
pub fn sums_run_in_turn()
    ensures { RunsInTurn }
{}

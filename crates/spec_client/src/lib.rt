//! The client: its definitions stand in specs/, and laws of them below.
#![tactic(auto)]

ghost use Rattle.spec_client.specs.Laws.{HearingsFall, TurnByCases, TurnsUnfold};

/// Each thing that a client hears leaves fewer to be heard.
pub fn hearings_fall()
    ensures { HearingsFall }
{}

/// A turn gives what is to be given; else the call is over; else something is heard, and it waits where
/// all bytes are heard, and else goes on as a turn behind that.
pub fn turn_is_by_cases()
    ensures { TurnByCases }
{}

/// All turns of a call at a moment are one turn, and all turns behind it.
pub fn turns_are_one_by_one()
    ensures { TurnsUnfold }
{}

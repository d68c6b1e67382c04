//! A store of persistent symbols in one file: slots, body text and forms, what a stop of the machine may leave of a file,
//! and the laws of a save. Definitions in specs/, and their laws as functions with an empty body.
#![tactic(auto)]

ghost use Rattle.spec_store.specs.Laws.{BodyTextsAreRead, StepsSurvive, SaveSurvives, ClosedGateMayOpen};
ghost use Rattle.spec_store.specs.Runs.{SavesSurvive};

/// The body text of entries whose numbers fit is read as these entries.
pub fn body_texts_are_read()
    ensures { BodyTextsAreRead }
{}

/// Each of the three steps of a save, with a stop in it: the gate is closed, the slot is filled, the gate is opened.
pub fn steps_survive()
    ensures { StepsSurvive }
{}

/// A stop at any moment of a save leaves a file that stands for the body before it or for the new one; once the save is
/// done, every stop leaves the new one.
pub fn save_survives()
    ensures { SaveSurvives }
{}

/// Why a save leaves a closed gate as it is: a stop in a write of it may open it over a body that never stood.
pub fn closed_gate_may_open()
    ensures { ClosedGateMayOpen }
{}

/// A stop at any moment of saves one after another leaves a file that stands for what stood before them or for one of their
/// bodies; once they are done it stands for the last one, and its number has risen by one a save.
pub fn saves_survive()
    ensures { SavesSurvive }
{}

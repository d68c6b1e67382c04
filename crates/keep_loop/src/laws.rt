//! What holds of saves that were begun one after another.

ghost use Rattle.std.specs.Prelude.{List, ◌∷◌, ◌++◌, ℕ, true, Option};
ghost use Rattle.spec_store.specs.Slots.{Standing};
ghost use Rattle.keep_loop.specs.KeepingOn.{Begun, MayStand, StandsForOneOf, bodies_begun};

/// A save that was done is not undone: what may stand behind it and others stands for its body, or for one of which a save was
/// begun later.
pub fn done_saves_are_not_undone()
    ensures { (standing one : Option Standing) (before later : List Begun) (body : List ℕ)
        → MayStand standing (before ++ record { body = body; done = true } ∷ later) one
        → StandsForOneOf (body ∷ bodies_begun later) one }
{}

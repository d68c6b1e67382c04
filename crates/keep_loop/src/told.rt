//! Who is told what a server comes to.

ghost use Rattle.std.specs.Prelude.{List, [], ◌∷◌, ◌++◌};

use ads_outside::Event;
use ads_served::Served;
use std::alloc::Global;

/// Is told what comes of events and of saves, and can change nothing of what is served nor of what is saved. It may say which events
/// it heard of; one outside says nothing.
pub trait Told<M: Served> {
    /// It heard that events came to these, in order.
    ghost heard: { Self → List M.Came → Type 0 } = { λ _ _. Unit {0} };

    /// An event was given, and is not taken yet.
    fn comes(&mut self, _alloc: Global, _served: &M, _event: &Event)
        ensures heard { (before : List M.Came) → heard self.old before → heard self.new before }
    {}

    /// An event was taken, and came to this; nothing is offered yet.
    fn came(&mut self, alloc: Global, served: &M, event: &Event, outcome: &M::Came)
        ensures heard { (before : List M.Came) → heard self.old before → heard self.new (before ++ outcome.now ∷ []) };

    /// A save was done, of a body of so many bytes.
    fn saved(&mut self, _bytes: u64)
        ensures heard { (before : List M.Came) → heard self.old before → heard self.new before }
    {}

    /// The disk failed, in a save or in the opening before it.
    fn failed(&mut self)
        ensures heard { (before : List M.Came) → heard self.old before → heard self.new before }
    {}

    /// Memory was wanting for a save or for the opening before it.
    fn no_memory(&mut self)
        ensures heard { (before : List M.Came) → heard self.old before → heard self.new before }
    {}

    /// The body is longer than 1,048,576 bytes, or the greatest number of a save is used.
    fn over_limit(&mut self)
        ensures heard { (before : List M.Came) → heard self.old before → heard self.new before }
    {}
}

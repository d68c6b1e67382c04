//! What stands beside a loop: it is shown what is served, and changes nothing of it.

ghost use Rattle.std.specs.Prelude.{◌≡◌, ℕ, ◌+◌, List, [], ◌∷◌, ◌++◌};
ghost use Rattle.serve_loop.specs.Looks.{Look, IsBodyOf, SeesMore};
ghost use Rattle.serve_loop.specs.TurnTaken.{StandsForSome};

use ads_outside::{Event, Wire};
use ads_served::Served;
use std::alloc::Global;

/// Whether a loop goes on.
#[derive(Clone, Copy, Debug, PartialEq, Eq)]
pub enum Go {
    /// It goes on.
    On,
    /// It ends.
    Stop,
}

/// What stands beside a loop that serves M, over an outside of its own.
pub trait Beside<M: Served, O> {
    /// What is kept of what was shown, whatever is served.
    ghost Kept: { Type 0 };

    /// From a beginning on, over an outside, it was shown these, of which it kept this.
    ghost seen: { Self → O → Self → O → Kept → List Look → Type 0 };

    /// So many more may be shown.
    ghost ready: { ℕ → Self → O → Type 0 };

    /// It was shown a body that is one of these, and ended the loop.
    ghost stopped: { Self → O → Self → O → (List ℕ → Type 0) → Type 0 };

    /// It was told that events came to these, in order.
    ghost told: { Self → List M.Came → Type 0 } = { λ _ _. Unit {0} };

    /// It asks that what is served stands for something.
    ghost asks: { Type 0 };

    /// An event is given, and is not taken yet.
    fn comes(&mut self, _alloc: Global, _served: &M, _event: &Event)
        ensures seen { (first : Self) (start outside : O) (kept : Kept) (looks : List Look)
            → seen first start self.old outside kept looks → seen first start self.new outside kept looks }
        ensures ready { (n : ℕ) (outside : O) → ready n self.old outside → ready n self.new outside }
        ensures told { (before : List M.Came) → told self.old before → told self.new before }
    {}

    /// An event was taken, and came to this; nothing is offered yet.
    fn came(&mut self, alloc: Global, served: &M, event: &Event, outcome: &M::Came)
        ensures seen { (first : Self) (start outside : O) (kept : Kept) (looks : List Look)
            → seen first start self.old outside kept looks → seen first start self.new outside kept looks }
        ensures ready { (n : ℕ) (outside : O) → ready n self.old outside → ready n self.new outside }
        ensures told { (before : List M.Came) → told self.old before → told self.new (before ++ outcome.now ∷ []) };

    /// A turn with a tick is over.
    fn ticked<W: Wire>(&mut self, alloc: Global, served: &M, wire: &W, outside: &mut O) -> Go
        requires some { asks → StandsForSome (M.serves served.now) }
        requires ready { ready 1 self.old outside.old }
        ensures seen { result ≡ Go.On → (first : Self) (start : O) (kept : Kept) → SeesMore M.body_of (M.serves served.now)
            (W.state wire.now).history (seen first start self.old outside.old kept) (seen first start self.new outside.new) }
        ensures ready { result ≡ Go.On → (n : ℕ) → ready (n + 1) self.old outside.old → ready n self.new outside.new }
        ensures told { (before : List M.Came) → told self.old before → told self.new before }
        ensures stopped { result ≡ Go.Stop
            → stopped self.old outside.old self.new outside.new (IsBodyOf M.body_of (M.serves served.now)) };

    /// It begins with nothing shown.
    ghost begins: { (a : Self) (n : ℕ) (o : O) → ready n a o → (kept : Kept) × seen a o a o kept [] };

    /// Where so many may be shown, one less may.
    ghost fewer: { (a : Self) (n : ℕ) (o : O) → ready (n + 1) a o → ready n a o };
}

//! Which connections an event touched.

ghost use Rattle.std.specs.Prelude.{◌≡◌, ◌≢◌, ◌+◌, ◌<◌, ◌≤◌, ℕ};
ghost use Rattle.connections.specs.Touched.{IsUntouched};

/// The places of connections that may have something to be offered, or are to be shut. All others are idle. Mostly an event
/// touches one; a frame that is passed on touches its sender and its target.
#[derive(Clone, Copy)]
pub(crate) enum Touched {
    Nothing,
    One(usize),
    Two(usize, usize),
    All,
}

impl Touched {
    /// One more place is touched.
    pub(crate) fn with(self, i: usize) -> Touched
        ensures { (k : ℕ) → IsUntouched result k → IsUntouched self k × (k ≢ i) }
    {
        match self {
            Touched::Nothing => Touched::One(i),
            Touched::One(a) => one_with(a, i),
            Touched::Two(a, b) => two_with(a, b, i),
            Touched::All => Touched::All,
        }
    }

    /// The connection at a place is gone, and those behind it move up.
    pub(crate) fn without(self, i: usize) -> Touched
        ensures before { (k : ℕ) → k < i → IsUntouched result k → IsUntouched self k }
        ensures behind { (k : ℕ) → i ≤ k → IsUntouched result k → IsUntouched self (k + 1) }
    {
        match self {
            Touched::Nothing => Touched::Nothing,
            Touched::One(a) => one_without(a, i),
            Touched::Two(a, b) => two_without(a, b, i),
            Touched::All => Touched::All,
        }
    }
}

fn one_with(a: usize, i: usize) -> Touched
    ensures { (k : ℕ) → IsUntouched result k → (k ≢ a) × (k ≢ i) }
{
    if a == i {
        Touched::One(a)
    } else {
        Touched::Two(a, i)
    }
}

fn two_with(a: usize, b: usize, i: usize) -> Touched
    ensures { (k : ℕ) → IsUntouched result k → ((k ≢ a) × (k ≢ b)) × (k ≢ i) }
{
    if a == i || b == i {
        Touched::Two(a, b)
    } else {
        Touched::All
    }
}

fn one_without(a: usize, i: usize) -> Touched
    ensures before { (k : ℕ) → k < i → IsUntouched result k → k ≢ a }
    ensures behind { (k : ℕ) → i ≤ k → IsUntouched result k → k + 1 ≢ a }
{
    if a == i {
        Touched::Nothing
    } else {
        Touched::One(moved_up(a, i))
    }
}

fn two_without(a: usize, b: usize, i: usize) -> Touched
    ensures before { (k : ℕ) → k < i → IsUntouched result k → (k ≢ a) × (k ≢ b) }
    ensures behind { (k : ℕ) → i ≤ k → IsUntouched result k → (k + 1 ≢ a) × (k + 1 ≢ b) }
{
    if a == i {
        one_without(b, i)
    } else if b == i {
        one_without(a, i)
    } else {
        Touched::Two(moved_up(a, i), moved_up(b, i))
    }
}

// Where a connection stands once that at another place is gone.
fn moved_up(a: usize, i: usize) -> usize
    requires { a ≢ i }
    ensures before { (k : ℕ) → k < i → k ≢ result → k ≢ a }
    ensures behind { (k : ℕ) → i ≤ k → k ≢ result → k + 1 ≢ a }
{
    if a > i { a - 1 } else { a }
}

//! A machine whose counts are printed.

ghost use Rattle.std.specs.Prelude.{ℕ, IfOk, List};

use ads_base::{NoMemory, Octets};
use std::alloc::Global;

/// A machine whose counts are printed.
pub trait Counting {
    /// A line tells its counts.
    ghost tells: { Self → List ℕ → Type 0 };

    /// The line of its counts.
    fn counts_line(&self, alloc: Global) -> Result<Octets, NoMemory>
        ensures { IfOk result (λ line. tells self.now line) };
}

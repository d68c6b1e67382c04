//! What a program writes to.

ghost use Rattle.std.specs.Prelude.{◌≡◌, ◌<◌, length};

use crate::Put;

/// A sink for bytes. It may tell what it holds; real standard output does not.
pub trait Sink {
    ghost use Rattle.ads_outside.specs.Puts.{Puts};
    ghost use Rattle.ads_outside.specs.SinkState.{SinkState, NeverFalls};

    /// All bytes that it holds, where they are told, and how many pieces failed or wanted memory.
    ghost state: { Self → SinkState };

    /// How many pieces failed; the count stands still at its type's end.
    fn faults(&self) -> u64
        ensures { result ≡ (state self.now).faults };

    /// Writes a piece behind what was written. What is told stays told.
    fn put(&mut self, bytes: &[u8]) -> Put
        requires { 0 < length bytes.now }
        ensures put { Puts result (state self.old) (state self.new) bytes.now }
        ensures later { NeverFalls (state self.old) (state self.new) };
}

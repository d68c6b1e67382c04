//! Where a log goes.

ghost use Rattle.std.specs.Prelude.{◌≤◌, ◌<◌, length};

/// Takes bytes of a log without a wait. It may tell what it holds; real standard error does not.
pub trait LogOutlet {
    ghost use Rattle.std.specs.Prelude.{ℕ, List, Option};
    ghost use Rattle.daemon_outside.specs.Outlet.{TakesFirst};

    /// All bytes that it took, where they are told.
    ghost held: { Self → Option (List ℕ) };

    /// Takes so many first bytes, perhaps none, and does not wait until there is room for more.
    fn take(&mut self, bytes: &[u8]) -> u32
        requires some { 0 < length bytes.now }
        requires few { length bytes.now ≤ 4096 }
        ensures within { result ≤ length bytes.now }
        ensures takes { TakesFirst result (held self.old) (held self.new) bytes.now };
}

//! The keeper of a call that is no recording.

use sample_store::{Keeper, KeeperOpen, Kept, Row, Totalled};

/// A keeper that tells no rows and never fails.
#[derive(Drop)]
pub(crate) struct NoKeeper;

impl Keeper for NoKeeper {
    ghost use Rattle.std.specs.Prelude.{None};
    ghost use Rattle.sample_store.specs.Keeper.{KeeperState};

    ghost state = { λ k. let x : KeeperState = record { rows = None; names = None; faults = 0 } in x };

    fn faults(&self) -> u64 {
        0
    }

    fn open(&mut self, _name: &str) -> KeeperOpen {
        KeeperOpen::Ready(0)
    }

    fn put(&mut self, _row: &Row) -> Kept {
        Kept::Done
    }

    fn settle(&mut self) -> Kept {
        Kept::Done
    }

    fn total(&mut self, _name: &[u8]) -> Totalled {
        Totalled::Nothing
    }
}

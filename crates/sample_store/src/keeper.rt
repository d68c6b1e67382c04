//! Where recorded samples are kept.

ghost use Rattle.std.specs.Prelude.{◌≡◌, ◌≤◌, ◌<◌, ◌^◌};

use crate::{KeeperOpen, Kept, Row, Totalled};

/// A table of recorded samples. It may tell its rows, which have the numbers from 1 on, and which names were opened; a table
/// on a disk does not.
pub trait Keeper {
    ghost use Rattle.ads_outside.specs.Rose.{Rose};
    ghost use Rattle.sample_store.specs.Keeper.{KeeperState, AreNumbered, Counts, IsNext, Keeps, OpensName, Totals};
    ghost use Rattle.sample_store.specs.Views.{row_kept};

    /// The rows and the names that were opened, where they are told, and how many calls failed.
    ghost state: { Self → KeeperState };

    /// How many calls failed; the count stands still at its type's end.
    fn faults(&self) -> u64
        ensures { result ≡ (state self.now).faults };

    /// Opens the table of a name, and tells how many rows it has.
    fn open(&mut self, name: &str) -> KeeperOpen
        ensures counts { Counts result (state self.old).rows }
        ensures named { OpensName result (state self.old).names (state self.new).names name.now }
        ensures numbers { AreNumbered (state self.new).rows }
        ensures rows { (state self.new).rows ≡ (state self.old).rows }
        ensures later { (state self.old).faults ≤ (state self.new).faults }
        ensures failed { result ≡ KeeperOpen.Failed → Rose (state self.old).faults (state self.new).faults };

    /// Puts a row. A number that is there changes nothing.
    fn put(&mut self, row: &Row) -> Kept
        requires some { 0 < row.now.number }
        requires most { row.now.number < 2 ^ 63 }
        requires next { IsNext (state self.old).rows row.now.number }
        ensures kept { Keeps result (state self.old).rows (state self.new).rows (row_kept row.now) }
        ensures numbers { AreNumbered (state self.new).rows }
        ensures names { (state self.new).names ≡ (state self.old).names }
        ensures later { (state self.old).faults ≤ (state self.new).faults }
        ensures failed { result ≡ Kept.Failed → Rose (state self.old).faults (state self.new).faults };

    /// Brings the rows that were put to where they stay. Until then a table may gather them; what was gathered is lost where
    /// this fails.
    fn settle(&mut self) -> Kept
        ensures rows { (state self.new).rows ≡ (state self.old).rows }
        ensures names { (state self.new).names ≡ (state self.old).names }
        ensures later { (state self.old).faults ≤ (state self.new).faults }
        ensures failed { result ≡ Kept.Failed → Rose (state self.old).faults (state self.new).faults };

    /// What is told of all rows of a name.
    fn total(&mut self, name: &[u8]) -> Totalled
        ensures told { Totals result (state self.old).rows name.now }
        ensures numbers { AreNumbered (state self.new).rows }
        ensures rows { (state self.new).rows ≡ (state self.old).rows }
        ensures names { (state self.new).names ≡ (state self.old).names }
        ensures later { (state self.old).faults ≤ (state self.new).faults }
        ensures failed { result ≡ Totalled.Failed → Rose (state self.old).faults (state self.new).faults };
}

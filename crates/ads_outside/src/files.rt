//! The files that a program reads.

ghost use Rattle.std.specs.Prelude.{◌≡◌, ◌≤◌};

use crate::Got;

/// Files that are read by their names. They may tell what they hold and which names were read; a real disk does not.
pub trait Files {
    ghost use Rattle.ads_outside.specs.FilesState.{FilesState, AddsName};
    ghost use Rattle.ads_outside.specs.Limit.{IsWithinLimit};
    ghost use Rattle.ads_outside.specs.Reads.{Reads};
    ghost use Rattle.ads_outside.specs.Rose.{Rose};

    /// The files and the names that were read, where they are told, and how many readings failed.
    ghost state: { Self → FilesState };

    /// How many readings failed; the count stands still at its type's end.
    fn faults(&self) -> u64
        ensures { result ≡ (state self.now).faults };

    /// The bytes of a file. Reading leaves the files as they are.
    fn read(&mut self, name: &str) -> Got
        ensures read { Reads (state self.old).held name.now result }
        ensures held { (state self.new).held ≡ (state self.old).held }
        ensures named { AddsName result (state self.old).names (state self.new).names name.now }
        ensures limit { IsWithinLimit result }
        ensures later { (state self.old).faults ≤ (state self.new).faults }
        ensures failed { result ≡ Got.Failed → Rose (state self.old).faults (state self.new).faults };
}

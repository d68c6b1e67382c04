//! The files of a recording.

ghost use Rattle.std.specs.Prelude.{◌≡◌, ◌↔◌, None, Some, IsTrue};
ghost use Rattle.sqlite_samples.specs.Nodes.{are_there};

use crate::found::Found;
use crate::loss::Loss;
use crate::node::Node;

/// The files of a recording at its opening: the file itself, the folder where it stands, and SQLite's log beside it.
#[derive(Clone, Copy, Debug)]
pub struct Files {
    pub file: Node,
    pub folder: Node,
    pub log: Node,
}

impl Files {
    /// What became of them, where each name leads to what is found.
    pub fn loss(&self, found: &Found) -> Option<Loss>
        ensures none { (result ≡ None) ↔ IsTrue (are_there self.now found.now) }
        ensures gone { result ≡ Some Loss.Gone → found.now.named ≡ None }
    {
        if found.named.is_none() {
            return Some(Loss::Gone);
        }
        if !self.file.is(found.named) {
            return Some(Loss::Replaced);
        }
        if !self.file.is(found.file) || !self.folder.is(found.folder) {
            return Some(Loss::Elsewhere);
        }
        if !self.log.is(found.log) {
            return Some(Loss::LogGone);
        }
        None
    }
}

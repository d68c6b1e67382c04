//! Which file it is.

ghost use Rattle.std.specs.Prelude.{◌≡◌, ◌&&◌, ◌==◌};

use std::fs::Metadata;
use std::os::unix::fs::MetadataExt;

/// The device and the inode of a file: no two files that are there have the same.
#[derive(Clone, Copy, Debug)]
pub(crate) struct Node {
    device: u64,
    inode: u64,
}

impl Node {
    /// Those of a file of which this is told.
    pub(crate) fn of(metadata: &Metadata) -> Node {
        Node {
            device: metadata.dev(),
            inode: metadata.ino(),
        }
    }

    /// Whether it is the same file.
    pub(crate) fn is(self, other: Node) -> bool
        ensures { result ≡ (self.device == other.device) && (self.inode == other.inode) }
    {
        self.device == other.device && self.inode == other.inode
    }
}

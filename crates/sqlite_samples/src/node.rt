//! Which file it is.

ghost use Rattle.std.specs.Prelude.{◌≡◌};
ghost use Rattle.sqlite_samples.specs.Nodes.{leads_to};

use std::fs::{self, Metadata};
use std::io;
use std::os::unix::fs::MetadataExt;

/// The device and the inode of a file: no two files that are there have the same.
#[derive(Clone, Copy, Debug)]
pub struct Node {
    pub device: u64,
    pub inode: u64,
}

impl Node {
    /// Whether it is the file that was found.
    pub fn is(self, found: Option<Node>) -> bool
        ensures { result ≡ leads_to found self }
    {
        match found {
            None => false,
            Some(found) => found.device == self.device && found.inode == self.inode,
        }
    }
}

/// The file to which a name leads, behind each link; none where it leads nowhere, or where that can't be seen.
pub fn node_at(rt: &HostRuntime, name: &str) -> Option<Node> {
    found_in(fs::metadata(rt, name))
}

/// What bears a name, and be it a link.
pub fn node_named(rt: &HostRuntime, name: &str) -> Option<Node> {
    found_in(fs::symlink_metadata(rt, name))
}

fn found_in(metadata: io::Result<Metadata>) -> Option<Node> {
    match metadata {
        Ok(found) => Some(Node {
            device: found.dev(),
            inode: found.ino(),
        }),
        Err(_) => None,
    }
}

//! What stands at the name of a file.

ghost use Rattle.std.specs.Prelude.{◌≡◌};
ghost use Rattle.daemon_outside.specs.Places.{are_one};

use ads_base::Octets;

/// A file, folder, pipe or device, by the numbers that the system gives it: those of its device, and its own there.
#[derive(Clone, Copy, Debug, PartialEq, Eq)]
pub struct Node {
    pub device: u64,
    pub number: u64,
}

/// What stands at the name of a file, behind links.
#[derive(Debug, Drop)]
pub enum Place {
    /// A file.
    File(Node),
    /// A folder, a pipe, a socket or a device.
    Other(Node),
    /// Nothing: the folder in which it would stand, and its last name there.
    Free(Node, Octets),
    /// That is not known, as where its folder is not there.
    Unknown,
}

impl Place {
    /// Whether two names have one place.
    pub fn is_that_of(&self, other: &Place) -> bool
        ensures { result ≡ are_one self.now other.now }
    {
        match (self, other) {
            (Place::File(node), Place::File(other)) => node.is(other),
            (Place::Other(node), Place::Other(other)) => node.is(other),
            (Place::Free(folder, name), Place::Free(other, last)) => folder.is(other)
                && name.as_slice() == last.as_slice(),
            _ => false,
        }
    }
}

impl Node {
    ghost use Rattle.daemon_outside.specs.Places.{is_same_node};

    /// Whether two are one.
    pub fn is(&self, other: &Node) -> bool
        ensures { result ≡ is_same_node self.now other.now }
    {
        self.device == other.device && self.number == other.number
    }
}

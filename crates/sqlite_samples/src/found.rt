//! What the names of a recording lead to.

use crate::node::Node;

/// What the names of a recording lead to: none where nothing is found.
#[derive(Clone, Copy, Debug)]
pub struct Found {
    /// The name that was given.
    pub named: Option<Node>,
    /// The name of the file, which was none of a link.
    pub file: Option<Node>,
    /// The folder of that name.
    pub folder: Option<Node>,
    /// SQLite's log beside the file.
    pub log: Option<Node>,
}

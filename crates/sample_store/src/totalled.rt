//! What a keeper tells of a name.

use crate::Total;

/// What a keeper tells of a name.
#[derive(Debug, Drop)]
pub enum Totalled {
    Found(Total),
    /// No row has the name.
    Nothing,
    /// The keeper failed.
    Failed,
    /// Memory was wanting.
    Memory,
}

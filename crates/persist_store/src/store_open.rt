//! How the opening of a store ends.

use crate::Store;

/// How the opening of a store ends.
#[derive(Drop)]
pub enum StoreOpen {
    Ready(Store),
    /// The disk failed.
    Failed,
}

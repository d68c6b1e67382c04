//! The symbols that a reload keeps.

use crate::Place;
use ads_base::ListOf;

/// A symbol that a reload keeps: its whole places in the old and in the new world.
#[derive(Clone, Copy, Debug, PartialEq, Eq)]
pub struct KeptPlace {
    /// The port, which has the symbol in both worlds.
    pub port: u16,
    pub from: Place,
    pub to: Place,
}

/// The symbols that a reload keeps. A symbol without an entry is not kept.
pub type KeptList = ListOf<KeptPlace>;

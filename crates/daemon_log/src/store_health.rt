//! What a log knows of the store.

use crate::posted::SaveTold;

/// How the last look at what is to be saved ended.
#[derive(Clone, Copy, Debug, PartialEq, Eq)]
pub(crate) enum StoreHealth {
    Well,
    Failed,
    NoMemory,
    OverLimit,
}

impl StoreHealth {
    /// How a look ended.
    pub(crate) fn of_save(save: SaveTold) -> StoreHealth {
        match save {
            SaveTold::Saved(_, _) => StoreHealth::Well,
            SaveTold::Failed => StoreHealth::Failed,
            SaveTold::NoMemory => StoreHealth::NoMemory,
            SaveTold::OverLimit => StoreHealth::OverLimit,
        }
    }

    /// What is told where it comes to that.
    pub(crate) fn text(self) -> &'static str {
        match self {
            StoreHealth::Well => "the store takes saves",
            StoreHealth::Failed =>
                "store fault: the disk failed, the last save stands, and the next look tries again",
            StoreHealth::NoMemory => "not saved: out of memory, and the next look tries again",
            StoreHealth::OverLimit =>
                "not saved: the persistent symbols have more than 1048576 bytes, or the store's numbers are used up",
        }
    }
}

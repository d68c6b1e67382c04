//! What the server and its store tell a log.

/// What became of a changed description.
#[derive(Clone, Copy, Debug, PartialEq, Eq)]
pub enum Reloaded {
    /// It is served, and the symbol version is this.
    Accepted(u8),
    /// It is no TOML document.
    Syntax,
    /// It breaks this rule, and in it this item.
    Breaks(u8, u32),
}

/// What became of a body that was to be saved.
#[derive(Clone, Copy, Debug, PartialEq, Eq)]
pub enum SaveTold {
    /// It was saved: so many bytes, and this was the moment behind it.
    Saved(u64, u64),
    /// The disk failed.
    Failed,
    /// There was no memory for it.
    NoMemory,
    /// It has more bytes than a store holds.
    OverLimit,
}

/// What a server counted since its start.
#[derive(Clone, Copy, Debug, PartialEq, Eq)]
pub struct Served {
    pub requests: u64,
    pub replies: u64,
    pub samples: u64,
}

/// What was told since the log looked, and the counts.
#[derive(Clone, Copy, Debug)]
pub(crate) struct Posted {
    pub(crate) reload: Option<Reloaded>,
    pub(crate) save: Option<SaveTold>,
    pub(crate) saves: u64,
    pub(crate) faults: u64,
    pub(crate) served: Served,
    /// There are lines of the store's file.
    pub(crate) has_lines: bool,
    /// Nothing is saved.
    pub(crate) held: bool,
}

impl Posted {
    /// Nothing was told.
    pub(crate) fn new() -> Posted {
        Posted {
            reload: None,
            save: None,
            saves: 0,
            faults: 0,
            served: Served {
                requests: 0,
                replies: 0,
                samples: 0,
            },
            has_lines: false,
            held: false,
        }
    }

    /// What became of a save is told.
    pub(crate) fn add_save(&mut self, save: SaveTold) {
        self.save = Some(save);
        match save {
            SaveTold::Saved(_, _) => self.saves = self.saves.saturating_add(1),
            SaveTold::Failed => self.faults = self.faults.saturating_add(1),
            SaveTold::NoMemory | SaveTold::OverLimit => {}
        }
    }
}

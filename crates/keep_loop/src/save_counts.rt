//! What became of the bodies that were looked at.

ghost use Rattle.std.specs.Prelude.{◌≡◌, ◌-◌, ◌^◌};
ghost use Rattle.keep_loop.specs.Looking.{counted, none_counted, AreFew};

use crate::SaveEnd;

/// What became of the bodies that were looked at.
#[derive(Clone, Copy, Debug, PartialEq, Eq)]
pub struct SaveCounts {
    /// How many saves were done.
    pub saved: u64,
    /// How often the disk failed, in a save or in the opening before it.
    pub failed: u64,
    /// How often memory was wanting for a save or for the opening before it.
    pub wanted: u64,
    /// How many bodies were over the limit.
    pub over: u64,
}

impl SaveCounts {
    /// Nothing was looked at.
    pub(crate) fn nothing() -> SaveCounts
        ensures { result ≡ none_counted }
    {
        SaveCounts {
            saved: 0,
            failed: 0,
            wanted: 0,
            over: 0,
        }
    }

    /// One look more, at which this became of the body.
    pub(crate) fn after(self, by: SaveEnd) -> SaveCounts
        requires few { AreFew self (2 ^ 64 - 2) }
        ensures { result ≡ counted by self }
    {
        match by {
            SaveEnd::Same => self,
            SaveEnd::Saved => SaveCounts {
                saved: self.saved + 1,
                ..self
            },
            SaveEnd::Failed => SaveCounts {
                failed: self.failed + 1,
                ..self
            },
            SaveEnd::Limit => SaveCounts {
                over: self.over + 1,
                ..self
            },
            SaveEnd::Memory => SaveCounts {
                wanted: self.wanted + 1,
                ..self
            },
        }
    }
}

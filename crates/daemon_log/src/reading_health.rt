//! What a log knows of the readings of the description's file.

/// How the last looks at the count of failed readings ended. A look comes each 100 ticks, and a reading each second: between a look
/// and the next but one the file is read.
#[derive(Clone, Copy, Debug, PartialEq, Eq)]
pub(crate) enum ReadingHealth {
    Well,
    /// A reading failed since the look before.
    Failed,
    /// One failed before that, and none since.
    Quiet,
}

impl ReadingHealth {
    /// What it comes to where a look finds that a reading failed since the look before, or that none did.
    pub(crate) fn after_look(self, failed: bool) -> ReadingHealth {
        if failed {
            return ReadingHealth::Failed;
        }
        match self {
            ReadingHealth::Failed => ReadingHealth::Quiet,
            ReadingHealth::Quiet | ReadingHealth::Well => ReadingHealth::Well,
        }
    }
}

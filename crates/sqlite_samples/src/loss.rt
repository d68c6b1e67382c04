//! What became of the files of a recording.

ghost use Rattle.std.specs.Prelude.{◌≡◌};
ghost use Rattle.sqlite_samples.specs.Losses.{loss_words};

/// What became of the files of a recording.
#[derive(Clone, Copy, Debug, PartialEq, Eq)]
pub enum Loss {
    /// The name leads to nothing.
    Gone,
    /// The name leads to another file.
    Replaced,
    /// The name leads to the file by another way, so that SQLite's log is not beside it.
    Elsewhere,
    /// SQLite's log is not there, or is another file.
    LogGone,
}

impl Loss {
    /// What a person is told of it.
    pub fn words(self) -> &'static str
        ensures { result.now ≡ loss_words self }
    {
        match self {
            Loss::Gone =>
                "the file or its folder was moved or removed, so nothing more is recorded",
            Loss::Replaced => "another file stands there now, so nothing more is recorded",
            Loss::Elsewhere => "the file is in another folder now, so nothing more is recorded",
            Loss::LogGone => {
                "the file that ends in -wal beside it was moved, removed or replaced, so nothing more is recorded"
            }
        }
    }
}

//! What a daemon uses a file for.

ghost use Rattle.std.specs.Prelude.{◌≡◌};
ghost use Rattle.daemon_words.specs.Files.{is_input, is_written, may_share};

/// What a file is to a daemon.
#[derive(Clone, Copy, Debug, PartialEq, Eq)]
pub enum FileUse {
    Description,
    Configuration,
    Store,
    /// The description that is kept beside the store.
    KeptDescription,
    Status,
    StopFile,
    /// The log goes there.
    ErrorOutput,
    /// The file or the recording of the signal with this number.
    Signal(u32),
}

impl FileUse {
    /// Whether two of a daemon's files may be one: two that signals are read of, or one of these and one that is not written.
    pub fn may_share(self, other: FileUse) -> bool
        ensures { result ≡ may_share self other }
    {
        (self.is_signal() && !other.is_written()) || (other.is_signal() && !self.is_written())
    }

    fn is_signal(self) -> bool
        ensures { result ≡ is_input self }
    {
        matches!(self, FileUse::Signal(_))
    }

    // Whether the daemon writes it as it goes.
    fn is_written(self) -> bool
        ensures { result ≡ is_written self }
    {
        match self {
            FileUse::Store | FileUse::KeptDescription | FileUse::Status => true,
            FileUse::Description
            | FileUse::Configuration
            | FileUse::StopFile
            | FileUse::ErrorOutput
            | FileUse::Signal(_) => false,
        }
    }

    /// What it is called in a sentence, behind which a signal's number stands.
    pub fn words(self) -> &'static str {
        match self {
            FileUse::Description => "description",
            FileUse::Configuration => "the configuration",
            FileUse::Store => "store",
            FileUse::KeptDescription => "the description that is kept beside the store",
            FileUse::Status => "status",
            FileUse::StopFile => "stop_file",
            FileUse::ErrorOutput => "standard error, to which the log goes,",
            FileUse::Signal(_) => "[[signal]] ",
        }
    }
}

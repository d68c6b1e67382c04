//! How a log is written.

/// How the lines of a log look.
#[derive(Clone, Copy, Debug, PartialEq, Eq)]
pub enum LogForm {
    /// A level stands in front, as systemd's journal reads it.
    Journal,
    /// A date stands in front.
    Plain,
    /// No line is written.
    Nothing,
}

impl LogForm {
    /// The form of a word.
    pub fn of_word(word: &str) -> Option<LogForm> {
        if word == "journal" {
            return Some(LogForm::Journal);
        }
        if word == "plain" {
            return Some(LogForm::Plain);
        }
        if word == "none" {
            return Some(LogForm::Nothing);
        }
        None
    }

    /// Its word.
    pub fn word(self) -> &'static str {
        match self {
            LogForm::Journal => "journal",
            LogForm::Plain => "plain",
            LogForm::Nothing => "none",
        }
    }
}

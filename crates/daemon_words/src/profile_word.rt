//! Which server a daemon is, as a word.

/// A profile: what the server makes of what TwinCAT's clients send.
#[derive(Clone, Copy, Debug, PartialEq, Eq)]
pub enum ProfileWord {
    /// It answers what TwinCAT's clients mean.
    Wide,
    /// It answers exactly what is written, as `ads serve` does.
    Strict,
}

impl ProfileWord {
    /// The profile of a word.
    pub fn of_word(word: &str) -> Option<ProfileWord> {
        if word == "wide" {
            return Some(ProfileWord::Wide);
        }
        if word == "strict" {
            return Some(ProfileWord::Strict);
        }
        None
    }

    /// Its word.
    pub fn word(self) -> &'static str {
        match self {
            ProfileWord::Wide => "wide",
            ProfileWord::Strict => "strict",
        }
    }
}

//! What all machines without a route may do, as a word.

ghost use Rattle.std.specs.Prelude.{◌≡◌};
ghost use Rattle.daemon_words.specs.OthersWords.{others_in};

/// The right of each machine without a route.
#[derive(Clone, Copy, Debug, PartialEq, Eq)]
pub enum OthersWord {
    /// It may read.
    Read,
    /// It may read and write.
    Write,
}

impl OthersWord {
    /// The right of a word; no word gives more than to read and write.
    pub fn of_word(word: &str) -> Option<OthersWord>
        ensures { result ≡ others_in word.now }
    {
        if word == "read" {
            return Some(OthersWord::Read);
        }
        if word == "write" {
            return Some(OthersWord::Write);
        }
        None
    }

    /// Its word, and what it means.
    pub fn sentence(self) -> &'static str {
        match self {
            OthersWord::Read => READ,
            OthersWord::Write => WRITE,
        }
    }
}

const READ: &str =
    "read: each machine that can reach the port may read, since the NetId is the only credential";

const WRITE: &str =
    "write: each machine that can reach the port may read and write, since the NetId is the only credential";

//! Yes or no, as a word.

ghost use Rattle.std.specs.Prelude.{◌≡◌};
ghost use Rattle.daemon_words.specs.YesNo.{begins_in, truth_in};

/// What a word says of something that is done or not: `true` or `false`, and no other word says anything.
pub(crate) fn truth_of_word(word: &str) -> Option<bool>
    ensures { result ≡ truth_in word.now }
{
    if word == "true" {
        return Some(true);
    }
    if word == "false" {
        return Some(false);
    }
    None
}

/// Whether a word says that a damaged store is begun anew: `begin`, and no other.
pub(crate) fn begins_by_word(word: &str) -> bool
    ensures { result ≡ begins_in word.now }
{
    word == "begin"
}

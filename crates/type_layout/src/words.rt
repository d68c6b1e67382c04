//! Words and separators in type texts.

ghost use Rattle.std.specs.Prelude.{◌≡◌, ◌≤◌, ◌==◌, length, take, drop, true, false, [], ◌∷◌, position, bytes_eq, MatchOption};
ghost use Rattle.std.specs.List.{slice_split, position_or_len};
ghost use Rattle.name_paths.specs.Path.{is_comma};
ghost use Rattle.spec_plant.specs.TypeTexts.{is_same_word};

/// Whether two texts are the same, ASCII case aside.
pub(crate) fn is_same_word(a: &[u8], b: &[u8]) -> bool
    ensures { result ≡ is_same_word a.now b.now }
{
    a.eq_ignore_ascii_case(b)
}

/// What stands behind a word that the text begins with, ASCII case aside.
pub(crate) fn behind_word<'a>(text: &'a [u8], word: &[u8]) -> Option<&'a [u8]>
    ensures { MatchOption result (is_same_word (take (length word.now) text.now) word.now ≡ false)
        (λ rest. (is_same_word (take (length word.now) text.now) word.now ≡ true)
        × (rest.now ≡ drop (length word.now) text.now)) }
{
    if text.len() < word.len() {
        return None;
    }
    let (head, rest) = text.split_at(word.len());
    if is_same_word(head, word) {
        Some(rest)
    } else {
        None
    }
}

/// The place of the first such byte, or the length where there is none.
pub(crate) fn first_place(text: &[u8], byte: u8) -> usize
    ensures place { result ≡ position_or_len (λ c. c == byte) text.now }
    ensures within { result ≤ length text.now }
{
    for (i, c) in text.iter().enumerate() {
        if *c == byte {
            return i;
        }
    }
    text.len()
}

/// The text before the first comma, and what stands behind that comma.
pub(crate) fn before_comma(text: &[u8]) -> (&[u8], Option<&[u8]>)
    ensures { MatchOption result.1 (slice_split is_comma text.now ≡ result.0.now ∷ [])
        (λ rest. slice_split is_comma text.now ≡ result.0.now ∷ slice_split is_comma rest.now) }
{
    match first_comma(text) {
        None => (text, None),
        Some(at) => (&text[..at], Some(&text[at + 1..])),
    }
}

fn first_comma(text: &[u8]) -> Option<usize>
    ensures { result ≡ position is_comma text.now }
{
    text.iter().position(|c| *c == b',')
}

//! The pieces of a path: its text cut before each full stop and each opening bracket.
ghost use Rattle.std.specs.Prelude.{◌≡◌, ◌∷◌, ◌≤◌, length, drop, position};
ghost use Rattle.name_paths.specs.Path.{begins_step, pieces_of};
ghost use Rattle.name_paths.specs.Pieces.{IsRest};

// The text before the first byte at which a step begins, and the text from there on.
pub fn cut(text: &[u8]) -> (&[u8], &[u8])
    ensures pieces { pieces_of text.now ≡ result.0.now ∷ drop 1 (pieces_of result.1.now) }
    ensures rest { IsRest result.1.now }
    ensures shorter { length result.1.now ≤ length text.now }
{
    match first_step(text) {
        None => (text, &[]),
        Some(at) => (&text[..at], &text[at..]),
    }
}

fn first_step(text: &[u8]) -> Option<usize>
    ensures { result ≡ position begins_step text.now }
{
    text.iter().position(|c| begins_step(*c))
}

fn begins_step(c: u8) -> bool
    ensures { result ≡ begins_step c }
{
    c == b'.' || c == b'['
}

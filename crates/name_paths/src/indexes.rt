//! The indexes of a step, `3`, `1,-2` or `0,0,7`.
ghost use Rattle.std.specs.Prelude.{◌≡◌, ◌∷◌, [], option_map, MatchOption, IfSome, position};
ghost use Rattle.std.specs.List.{slice_split};
ghost use Rattle.name_paths.specs.Path.{indexes_of, is_comma};
ghost use Rattle.name_paths.specs.Indexes.{numbers_of_indexes, HasBlanks};

use crate::number::read_number;

/// One to three indexes.
#[derive(Clone, Copy, PartialEq, Eq, Debug)]
pub struct Indexes {
    /// How many indexes there are, 1 to 3.
    pub count: u8,
    /// The first index.
    pub i: i32,
    /// The second index, 0 where there is one alone.
    pub j: i32,
    /// The third index, 0 where there are fewer than three.
    pub k: i32,
}

// The indexes that stand between brackets.
pub fn read_indexes(text: &[u8]) -> Option<Indexes>
    ensures value { option_map numbers_of_indexes result ≡ indexes_of text.now }
    ensures blanks { IfSome result HasBlanks }
{
    let (first, rest) = before_comma(text);
    let i = read_number(first)?;
    let Some(text) = rest else {
        return Some(Indexes {
            count: 1,
            i,
            j: 0,
            k: 0,
        });
    };
    let (second, rest) = before_comma(text);
    let j = read_number(second)?;
    let Some(text) = rest else {
        return Some(Indexes {
            count: 2,
            i,
            j,
            k: 0,
        });
    };
    let (third, rest) = before_comma(text);
    let None = rest else {
        return None;
    };
    let k = read_number(third)?;
    Some(Indexes { count: 3, i, j, k })
}

// The text before the first comma, and what stands behind that comma.
fn before_comma(text: &[u8]) -> (&[u8], Option<&[u8]>)
    ensures { MatchOption result.1 (slice_split is_comma text.now ≡ result.0.now ∷ [])
        (λ rest. slice_split is_comma text.now ≡ result.0.now ∷ slice_split is_comma rest.now) }
{
    match first_comma(text) {
        None => (text, None),
        Some(at) => (&text[..at], Some(&text[at + 1..])),
    }
}

fn first_comma(text: &[u8]) -> Option<usize>
    ensures { result ≡ position is_comma text.now }
{
    text.iter().position(|c| *c == b',')
}

//! A step of a path: a name, or one to three indexes.
ghost use Rattle.std.specs.Prelude.{◌≡◌, ◌∷◌, option_map, IfSome};
ghost use Rattle.name_paths.specs.Path.{later_step_of, name_step_of, index_step_of};
ghost use Rattle.name_paths.specs.Steps.{step_of, HasBlankPlaces};

use crate::identifier::is_identifier;
use crate::indexes::{Indexes, read_indexes};

/// A step of a path.
#[derive(Clone, Copy, PartialEq, Eq, Debug)]
pub enum Step<'a> {
    /// A member's name, or an identifier of the symbol's name.
    Name(&'a [u8]),
    /// The indexes of an array's element.
    Index(Indexes),
}

// The step that begins with this byte and goes on with this text.
pub fn later_step(begin: u8, text: &[u8]) -> Option<Step<'_>>
    ensures value { option_map step_of result ≡ later_step_of (begin ∷ text.now) }
    ensures blanks { IfSome result HasBlankPlaces }
{
    if begin == b'.' {
        name_step(text)
    } else {
        index_step(text)
    }
}

fn name_step(text: &[u8]) -> Option<Step<'_>>
    ensures value { option_map step_of result ≡ name_step_of text.now }
    ensures blanks { IfSome result HasBlankPlaces }
{
    if is_identifier(text) {
        Some(Step::Name(text))
    } else {
        None
    }
}

fn index_step(text: &[u8]) -> Option<Step<'_>>
    ensures value { option_map step_of result ≡ index_step_of text.now }
    ensures blanks { IfSome result HasBlankPlaces }
{
    let [inside @ .., b']'] = text else {
        return None;
    };
    let indexes = read_indexes(inside)?;
    Some(Step::Index(indexes))
}

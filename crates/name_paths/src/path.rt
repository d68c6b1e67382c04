//! Paths: an identifier, and then parts by name and by index.
ghost use Rattle.std.specs.Prelude.{◌≡◌, ◌∷◌, [], is_some, option_map, slice_get, drop, MatchOption, IfSome};
ghost use Rattle.name_paths.specs.Identifier as identifier;
ghost use Rattle.name_paths.specs.Indexes.{HasBlanks};
ghost use Rattle.name_paths.specs.Path.{steps_of, later_steps_of, pieces_of, name_step};
ghost use Rattle.name_paths.specs.Pieces.{IsRest};
ghost use Rattle.name_paths.specs.Steps.{step_of, HasBlankPlaces};

use crate::identifier::is_identifier;
use crate::later::{LaterSteps, are_later_steps};
use crate::pieces::cut;
use crate::step::Step;
use std::marker::Model;

/// The most bytes of a path.
pub const MAX_PATH: usize = 1024;

/// A path to a symbol or a part of it, as `Main.axis[2].pos`. It borrows its text, and contracts
/// see it as the list of its steps.
#[derive(Drop)]
pub struct Path<'a> {
    text: &'a [u8],
}

impl<'a> Model for Path<'a> {
    ghost use Rattle.std.specs.Prelude.{List, [], IsTrue, is_some, unwrap_or};
    ghost use Rattle.name_paths.specs.Path;

    ghost Value = { List Path.Step };

    ghost view = { λ p. unwrap_or (Path.steps_of p.text.now) [] };

    ghost invariant = { λ p. IsTrue (is_some (Path.steps_of p.text.now)) };
}

impl<'a> Path<'a> {
    /// The path that the text writes: an identifier, then `.` and an identifier or one to three
    /// indexes in brackets, any number of times, at most 1,024 bytes in all. None exactly where it
    /// writes none.
    pub fn read(text: &'a [u8]) -> Option<Path<'a>>
        ensures { result ≡ steps_of text.now }
    {
        if text.len() > MAX_PATH {
            return None;
        }
        let (first, rest) = cut(text);
        if is_identifier(first) && are_later_steps(rest) {
            Some(Path { text })
        } else {
            None
        }
    }

    /// The first step, which is a name, and the steps behind it.
    pub fn first(&self) -> (&'a [u8], LaterSteps<'a>)
        ensures { self.now ≡ name_step result.0.now ∷ result.1 }
    {
        let (first, rest) = cut(self.text);
        (first, LaterSteps::of(rest))
    }

    /// The n-th step, counted from 0. None exactly past the last one.
    pub fn step(&self, n: usize) -> Option<Step<'a>>
        ensures value { option_map step_of result ≡ slice_get self.now n }
        ensures blanks { IfSome result HasBlankPlaces }
    {
        let (first, later) = self.first();
        if n == 0 {
            Some(Step::Name(first))
        } else {
            later.step(n - 1)
        }
    }
}

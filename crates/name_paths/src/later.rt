//! The steps of a path behind its first one.
ghost use Rattle.std.specs.Prelude.{◌≡◌, ◌∷◌, [], Some, is_some, unwrap_or, option_map, slice_get, drop, MatchOption, IfSome};
ghost use Rattle.name_paths.specs.Path.{later_steps_of, pieces_of};
ghost use Rattle.name_paths.specs.Pieces.{IsRest, AreRests};
ghost use Rattle.name_paths.specs.Steps.{step_of, HasBlankPlaces};

use crate::pieces::cut;
use crate::step::{Step, later_step};
use std::marker::Model;

/// Steps of a path that stand behind one of its steps. They borrow their text, and contracts see
/// them as their list.
#[derive(Drop)]
pub struct LaterSteps<'a> {
    text: &'a [u8],
}

impl<'a> Model for LaterSteps<'a> {
    ghost use Rattle.std.specs.Prelude.{List, [], drop, unwrap_or};
    ghost use Rattle.name_paths.specs.Path;
    ghost use Rattle.name_paths.specs.Pieces.{AreRests};

    ghost Value = { List Path.Step };

    ghost view = { λ s. unwrap_or (Path.later_steps_of (drop 1 (Path.pieces_of s.text.now))) [] };

    ghost invariant = { λ s. AreRests s.text.now };
}

impl<'a> LaterSteps<'a> {
    // The steps that this text writes.
    pub(crate) fn of(text: &'a [u8]) -> LaterSteps<'a>
        requires { AreRests text.now }
        ensures { result ≡ unwrap_or (later_steps_of (drop 1 (pieces_of text.now))) [] }
    {
        LaterSteps { text }
    }

    /// The next step and those behind it. None exactly where there is none.
    pub fn next(&self) -> Option<(Step<'a>, LaterSteps<'a>)>
        ensures value { MatchOption result (self.now ≡ [])
            (λ (step, later). self.now ≡ step_of step ∷ later) }
        ensures blanks { IfSome result (λ (step, _). HasBlankPlaces step) }
    {
        let [begin, text @ ..] = self.text else {
            return None;
        };
        let (piece, rest) = cut(text);
        let step = later_step(*begin, piece)?;
        Some((step, LaterSteps { text: rest }))
    }

    /// The n-th of these steps, counted from 0. None exactly past the last one.
    pub fn step(&self, n: usize) -> Option<Step<'a>>
        ensures value { option_map step_of result ≡ slice_get self.now n }
        ensures blanks { IfSome result HasBlankPlaces }
    {
        let (step, later) = self.next()?;
        if n == 0 {
            Some(step)
        } else {
            later.step(n - 1)
        }
    }
}

// Whether the text, which begins a step if it has a byte, is steps.
pub fn are_later_steps(mut rest: &[u8]) -> bool
    requires { IsRest rest.now }
    ensures { result ≡ is_some (later_steps_of (drop 1 (pieces_of rest.now))) }
{
    while let [begin, text @ ..] = rest {
        let (piece, others) = cut(text);
        if later_step(*begin, piece).is_none() {
            return false;
        }
        rest = others;
    }
    true
}

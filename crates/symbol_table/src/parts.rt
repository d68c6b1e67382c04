//! The part of a symbol that the steps behind its name lead to.

ghost use Rattle.std.specs.Prelude.{◌≡◌, ◌<◌, count_by, drop, length, option_map};
ghost use Rattle.name_paths.specs.Name.{identifiers_of, is_full_stop};
ghost use Rattle.name_paths.specs.Steps.{step_of};
ghost use Rattle.spec_plant.specs.AcceptedTypes.{AreTypes};
ghost use Rattle.spec_plant.specs.Parts.{part_behind, part_of, within_part};
ghost use Rattle.spec_plant.specs.Trees.{tree_of};
ghost use Rattle.type_layout.specs.Extents.{extents_of};
ghost use Rattle.type_layout.specs.Shapes.{shape_of_ref};
ghost use Rattle.type_layout.specs.NamedTypes.{types_of};
ghost use Rattle.spec_plant.specs.PartTexts.{comment_of_step, comment_behind};
ghost use Rattle.symbol_table.specs.FoundParts.{part_in, IsSound, Tells};

use crate::members::comment_at;
use name_paths::{LaterSteps, Path, Step};
use type_layout::{Extents, TypeRef, Types};

/// A part of a symbol: its first byte within the symbol, its type and its comment.
#[derive(Clone, Copy)]
pub struct Part<'a> {
    pub first: u32,
    pub kind: TypeRef<'a>,
    pub comment: &'a [u8],
}

/// The steps behind the first ones of a path.
pub fn steps_behind<'a>(path: &Path<'a>, count: usize) -> LaterSteps<'a>
    requires { 0 < count }
    ensures { result ≡ drop count path.now }
{
    let (_, later) = path.first();
    skip(later, count - 1)
}

/// The steps of a path behind as many as a name has identifiers.
#[tactic(auto, using(crate::proofs::NameSteps::behind_name))]
pub fn steps_behind_name<'a>(path: &Path<'a>, name: &[u8]) -> LaterSteps<'a>
    ensures { result ≡ drop (length (identifiers_of name.now)) path.now }
{
    let (_, later) = path.first();
    skip(later, stop_count(name))
}

fn stop_count(name: &[u8]) -> usize
    ensures { result ≡ count_by is_full_stop name.now }
{
    name.iter().filter(|c| **c == b'.').count()
}

fn skip(later: LaterSteps<'_>, count: usize) -> LaterSteps<'_>
    ensures { result ≡ drop count later.entry }
{
    if count == 0 {
        return later;
    }
    match later.next() {
        None => later,
        Some((_, rest)) => skip(rest, count - 1),
    }
}

/// The part behind these steps; None where one of them leads to nothing.
pub fn part_behind<'a>(
    types: &'a Types,
    extents: &Extents,
    part: Part<'a>,
    steps: &LaterSteps<'_>,
) -> Option<Part<'a>>
    requires types { AreTypes (types_of types.now) }
    requires extents { extents.now ≡ extents_of (types_of types.now) }
    requires sound { IsSound (types_of types.now) part }
    ensures { Tells (types_of types.now)
        (comment_behind part.entry.comment.now (tree_of (types_of types.now) (shape_of_ref part.entry.kind)) steps.now)
        (part_behind (part_in (types_of types.now) part.entry) steps.now) result }
{
    match steps.next() {
        None => Some(part),
        Some((step, rest)) => match part_at(types, extents, part, &step) {
            None => None,
            Some(next) => part_behind(types, extents, next, &rest),
        },
    }
}

// The part that one step leads to.
fn part_at<'a>(
    types: &'a Types,
    extents: &Extents,
    part: Part<'a>,
    step: &Step<'_>,
) -> Option<Part<'a>>
    requires types { AreTypes (types_of types.now) }
    requires extents { extents.now ≡ extents_of (types_of types.now) }
    requires sound { IsSound (types_of types.now) part }
    ensures { Tells (types_of types.now)
        (comment_of_step (tree_of (types_of types.now) (shape_of_ref part.entry.kind)) (step_of step.now))
        (option_map (within_part (part_in (types_of types.now) part.entry))
        (part_of (tree_of (types_of types.now) (shape_of_ref part.entry.kind)) (step_of step.now))) result }
{
    let (first, kind) = extents.member(types, part.kind, step)?;
    let comment = comment_at(types, part.kind, step);
    Some(Part {
        first: part.first + first,
        kind,
        comment,
    })
}

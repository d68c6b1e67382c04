//! Calls whose answers are cut otherwise: what that means stands in specs/, and laws of it below.
#![tactic(auto)]

ghost use Rattle.spec_cutting.specs.Laws.{AnswersMayBeCut, CuttingsAreOne, LinksAreOne};

/// Calls over the same answers of a link, cut otherwise, send the same, print the same and end alike, where neither
/// used up its answers.
pub fn answers_may_be_cut()
    ensures { AnswersMayBeCut }
{}

/// Over the server's machine, with every device of a world of type `W` and clients of type `C`, what a local call sends,
/// its text and its end do not depend on how its answers are cut. Byte by byte the call must not use up its answers, and
/// none of its requests may close the connection while something waits, as one does whose reply finds the queue full.
pub fn cuttings_are_one<W, C>()
    ensures local { CuttingsAreOne W C }
    ensures link { LinksAreOne W C }
{}

//! What is to be done next.

ghost use Rattle.std.specs.Prelude.{◌≡◌, ◌∷◌, [], IfOk};
ghost use Rattle.spec_client.specs.Stages as stages;
ghost use Rattle.client_replies.specs.Kept.{request_kept};
ghost use Rattle.client_replies.specs.Stages.{end_meant, stage_kept, output_kept, progress_kept};

use crate::recordings::recording_ended;
use crate::stage::{Asked, CallEnd, Output, Progress, Stage};
use ads_base::{ListOf, NoMemory, Octets};
use std::alloc::Global;

/// Nothing changes.
pub fn stay(alloc: Global, stage: Stage) -> Progress
    ensures { progress_kept result ≡ stages.stay (stage_kept stage) }
{
    Progress {
        stage,
        outputs: ListOf::new(alloc),
    }
}

/// A call that is no recording ends here.
pub(crate) fn ended(alloc: Global, end: CallEnd) -> Progress
    ensures { progress_kept result ≡ stages.ended (end_meant end) }
{
    stay(alloc, Stage::Finished(end))
}

/// The call ends at this stage, whichever it is.
pub fn ended_at(alloc: Global, stage: Stage, end: CallEnd) -> Progress
    ensures { progress_kept result ≡ stages.ended_at (stage_kept stage) (end_meant end) }
{
    match stage {
        Stage::Records(_, r) => recording_ended(end, r, ListOf::new(alloc)),
        _ => ended(alloc, end),
    }
}

/// The call goes on behind one output.
pub(crate) fn giving(alloc: Global, stage: Stage, output: Output) -> Result<Progress, NoMemory>
    ensures { IfOk result (λ p. progress_kept p ≡ stages.progress (stage_kept stage) (output_kept output ∷ [])) }
{
    let mut outputs = ListOf::new(alloc);
    outputs.push(alloc, output)?;
    Ok(Progress { stage, outputs })
}

/// A request is sent.
pub(crate) fn sending(alloc: Global, stage: Stage, asked: Asked) -> Result<Progress, NoMemory>
    ensures { IfOk result (λ p. progress_kept p ≡ stages.progress (stage_kept stage) (stages.ToSend (request_kept asked) ∷ [])) }
{
    giving(alloc, stage, Output::ToSend(asked))
}

/// A text is printed, and the call is done.
pub(crate) fn done_with(alloc: Global, text: Octets) -> Result<Progress, NoMemory>
    ensures { IfOk result (λ p. progress_kept p ≡ stages.done_with (stages.ToPrint text ∷ [])) }
{
    giving(alloc, Stage::Finished(CallEnd::Done), Output::ToPrint(text))
}

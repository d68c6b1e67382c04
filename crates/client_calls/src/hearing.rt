//! What a call does when something is heard.

ghost use Rattle.std.specs.Prelude.{◌≡◌, IfOk};
ghost use Rattle.spec_client.specs.Steps as steps;
ghost use Rattle.client_core.specs.Heard.{heard_meant};
ghost use Rattle.client_replies.specs.Rows.{HasNumbers};
ghost use Rattle.client_replies.specs.Stages.{stage_kept, progress_kept};

use ads_base::NoMemory;
use client_core::Heard;
use client_replies::{
    CallEnd, Progress, Stage, after_answer, after_end, after_sample, ended_at, stay,
};
use std::alloc::Global;

/// What is heard is taken in.
#[tactic(auto, unfolding(spec_client::specs::Steps::after_heard))]
pub(crate) fn after_heard(alloc: Global, stage: Stage, heard: Heard) -> Result<Progress, NoMemory>
    requires { HasNumbers (stage_kept stage) }
    ensures { IfOk result (λ p. progress_kept p ≡ steps.after_heard (stage_kept stage) (heard_meant heard)) }
{
    match heard {
        Heard::Answered {
            id: _,
            error,
            command,
            bytes,
        } => after_answer(alloc, stage, error, command, bytes),
        Heard::Sample {
            handle,
            time,
            bytes,
        } => after_sample(alloc, stage, handle, time, bytes.as_slice()),
        Heard::Ended(handle) => after_end(alloc, stage, handle),
        Heard::Stray(_) => Ok(stay(alloc, stage)),
        Heard::TimedOut { id: _, sent, now } => {
            Ok(ended_at(alloc, stage, CallEnd::TimedOut { sent, now }))
        }
        Heard::NotYet => Ok(stay(alloc, stage)),
        Heard::Broken(peer) => Ok(ended_at(alloc, stage, CallEnd::BadPeer(peer))),
    }
}

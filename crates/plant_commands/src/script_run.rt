//! A script is played on a description.

ghost use Rattle.std.specs.Prelude.{◌<◌, ◌^◌, ◌≡◌, [], IfOk, length};
ghost use Rattle.spec_plant.specs.Accepted.{IsAccepted};
ghost use Rattle.type_layout.specs.Descriptions.{description_of};
ghost use Rattle.replay_script.specs.Fresh.{OpenNew};
ghost use Rattle.run_tasks.specs.Verdict.{over_server};
ghost use Rattle.run_tasks.specs.Outcomes.{IsOutcome};

use crate::play::play;
use crate::scripted::Scripted;
use ads_base::NoMemory;
use run_tasks::{Outcome, Status};
use server_core::Sources;
use std::alloc::Global;
use std::thread::Threads;

/// The outcome of a script that is played on a description with these signals.
pub fn outcome_of_script<T: Threads + Sync, G: Sources>(
    rt: &T,
    alloc: Global,
    both: Scripted,
    signals: G,
) -> Result<Outcome, NoMemory>
    requires new { OpenNew [] both.script }
    requires few { length (G.waves signals) < 2 ^ 32 }
    requires accepted { IsAccepted (description_of both.description) (length (G.waves signals)) }
    ensures is { IfOk result (IsOutcome (over_server (G.waves signals) (description_of both.description) both.script)) }
    ensures status { IfOk result (λ o. o.status ≡ Status.Done) }
{
    let Scripted {
        description,
        script,
    } = both;
    match play(rt, alloc, description, signals, script) {
        Err(e) => Err(e),
        Ok(text) => Ok(Outcome {
            status: Status::Done,
            text,
        }),
    }
}

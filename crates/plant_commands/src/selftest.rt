//! `selftest`: a script is played on the built-in description.

ghost use Rattle.std.specs.Prelude.{◌<◌, ◌^◌, ◌≤◌, IfOk, length};
ghost use Rattle.run_tasks.specs.BuiltIn.{built_in};
ghost use Rattle.run_tasks.specs.Verdict.{over_server, verdict_of_script};
ghost use Rattle.run_tasks.specs.Outcomes.{IsOutcome};
ghost use Rattle.plant_commands.specs.FileOutcomes.{IsOfScript};

use crate::built_in::built_in_description;
use crate::script_run::outcome_of_script;
use crate::scripted::{Scripted, script_of};
use ads_base::NoMemory;
use run_tasks::Outcome;
use server_core::Sources;
use std::alloc::Global;
use std::thread::Threads;

/// The outcome of `selftest` over the bytes of a script.
pub fn selftest<T: Threads + Sync, G: Sources>(
    rt: &T,
    alloc: Global,
    signals: G,
    bytes: &[u8],
) -> Result<Outcome, NoMemory>
    requires few { length (G.waves signals) < 2 ^ 32 }
    requires short { length bytes.now ≤ 16777216 }
    ensures is { IfOk result (IsOutcome (verdict_of_script (over_server (G.waves signals) built_in) bytes.now)) }
    ensures status { IfOk result (λ o. IsOfScript o.status) }
{
    match script_of(alloc, bytes) {
        Err(e) => Err(e),
        Ok(Err(told)) => Ok(told),
        Ok(Ok(script)) => match built_in_description(alloc) {
            Err(e) => Err(e),
            Ok(description) => {
                let both = Scripted {
                    description,
                    script,
                };
                outcome_of_script(rt, alloc, both, signals)
            }
        },
    }
}

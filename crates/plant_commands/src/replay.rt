//! `replay` and `relay`: a script is played on the description of a file, or on its relay.

ghost use Rattle.std.specs.Prelude.{◌<◌, ◌^◌, ◌≡◌, ◌∷◌, [], IfOk, OnErr, length};
ghost use Rattle.ads_outside.specs.FilesState.{ReadsSome};
ghost use Rattle.ads_outside.specs.Rose.{Rose};
ghost use Rattle.run_tasks.specs.Verdict.{over_relay, over_server, verdict_of_both};
ghost use Rattle.run_tasks.specs.Outcomes.{Decides};
ghost use Rattle.plant_commands.specs.FileOutcomes.{IsOfFileTask};
ghost use Rattle.run_tasks.specs.Readings.{OverFiles, ReadsBoth};

use crate::relay_play::outcome_of_relay;
use crate::script_run::outcome_of_script;
use crate::scripted::read_both;
use ads_base::NoMemory;
use ads_outside::Files;
use cli_words::Text;
use run_tasks::{Outcome, Status};
use server_core::Sources;
use std::alloc::Global;
use std::thread::Threads;

/// The outcome of `replay` over its two files.
pub fn replay<T: Threads + Sync, F: Files, G: Sources>(
    rt: &T,
    alloc: Global,
    description: &Text,
    script: &Text,
    signals: G,
    files: &mut F,
) -> Result<Outcome, NoMemory>
    requires few { length (G.waves signals) < 2 ^ 32 }
    ensures decided { IfOk result (λ o. OverFiles (F.state files.old).held (λ first second.
        Decides (verdict_of_both (length (G.waves signals)) (over_server (G.waves signals)) description.now script.now first second)
        (Rose (F.state files.old).faults (F.state files.new).faults) o)) }
    ensures status { IfOk result (λ o. IsOfFileTask o.status) }
    ensures reads { IfOk result (λ o. ReadsBoth o.status (F.state files.old).names (F.state files.new).names description.now script.now) }
    ensures reads_some { OnErr result (ReadsSome (F.state files.old).names (F.state files.new).names (description.now ∷ script.now ∷ [])) }
    ensures fault { IfOk result (λ o. o.status ≡ Status.ReadFault
        → Rose (F.state files.old).faults (F.state files.new).faults) }
    ensures held { (F.state files.new).held ≡ (F.state files.old).held }
{
    match read_both(alloc, description, script, signals.count() as u32, files) {
        Err(e) => Err(e),
        Ok(Err(told)) => Ok(told),
        Ok(Ok(both)) => match outcome_of_script(rt, alloc, both, signals) {
            Err(e) => Err(e),
            Ok(outcome) => Ok(outcome),
        },
    }
}

/// The outcome of `relay` over its two files, for this number of signals.
pub fn relay<T: Threads + Sync, F: Files>(
    rt: &T,
    alloc: Global,
    description: &Text,
    script: &Text,
    signals: u32,
    files: &mut F,
) -> Result<Outcome, NoMemory>
    ensures decided { IfOk result (λ o. OverFiles (F.state files.old).held (λ first second.
        Decides (verdict_of_both signals over_relay description.now script.now first second)
        (Rose (F.state files.old).faults (F.state files.new).faults) o)) }
    ensures status { IfOk result (λ o. IsOfFileTask o.status) }
    ensures reads { IfOk result (λ o. ReadsBoth o.status (F.state files.old).names (F.state files.new).names description.now script.now) }
    ensures reads_some { OnErr result (ReadsSome (F.state files.old).names (F.state files.new).names (description.now ∷ script.now ∷ [])) }
    ensures fault { IfOk result (λ o. o.status ≡ Status.ReadFault
        → Rose (F.state files.old).faults (F.state files.new).faults) }
    ensures held { (F.state files.new).held ≡ (F.state files.old).held }
{
    match read_both(alloc, description, script, signals, files) {
        Err(e) => Err(e),
        Ok(Err(told)) => Ok(told),
        Ok(Ok(both)) => match outcome_of_relay(rt, alloc, both) {
            Err(e) => Err(e),
            Ok(outcome) => Ok(outcome),
        },
    }
}

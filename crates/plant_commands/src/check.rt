//! `check`: a description is read, and told of.

ghost use Rattle.std.specs.Prelude.{◌≡◌, ◌∷◌, [], IfOk, OnErr};
ghost use Rattle.ads_outside.specs.FilesState.{ReadsAll, ReadsSome};
ghost use Rattle.ads_outside.specs.Named.{bytes_of};
ghost use Rattle.ads_outside.specs.Rose.{Rose};
ghost use Rattle.run_tasks.specs.Outcomes.{Decides};
ghost use Rattle.run_tasks.specs.Readings.{OverFile};
ghost use Rattle.run_tasks.specs.Verdict.{verdict_of_check, verdict_of_file};
ghost use Rattle.plant_commands.specs.FileOutcomes.{IsOfFileTask};

use crate::report::report;
use ads_base::NoMemory;
use ads_outside::Files;
use cli_words::Text;
use run_tasks::{Outcome, Status, read_description};
use std::alloc::Global;

/// The outcome of `check` over its file, for this number of signals.
#[tactic(auto, using(run_tasks::proofs::ReadLemmas::some_of_one))]
pub fn check<F: Files>(
    alloc: Global,
    description: &Text,
    signals: u32,
    files: &mut F,
) -> Result<Outcome, NoMemory>
    ensures decided { IfOk result (λ o. OverFile (F.state files.old).held (λ held.
        Decides (verdict_of_file (verdict_of_check signals) (bytes_of held description.now))
        (Rose (F.state files.old).faults (F.state files.new).faults) o)) }
    ensures plain { IfOk result (λ o. IsOfFileTask o.status) }
    ensures reads { IfOk result (λ o. ReadsAll (F.state files.old).names (F.state files.new).names (description.now ∷ [])) }
    ensures reads_some { OnErr result (ReadsSome (F.state files.old).names (F.state files.new).names (description.now ∷ [])) }
    ensures fault { IfOk result (λ o. o.status ≡ Status.ReadFault
        → Rose (F.state files.old).faults (F.state files.new).faults) }
    ensures held { (F.state files.new).held ≡ (F.state files.old).held }
{
    match read_description(alloc, description, signals, files) {
        Err(e) => Err(e),
        Ok(Err(told)) => Ok(told),
        Ok(Ok(read)) => match report(alloc, &read.description) {
            Err(e) => Err(e),
            Ok(text) => Ok(Outcome {
                status: Status::Done,
                text,
            }),
        },
    }
}

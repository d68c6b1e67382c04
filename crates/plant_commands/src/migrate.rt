//! `migrate`: a description is printed under schema 2.

ghost use Rattle.std.specs.Prelude.{◌≡◌, ◌∷◌, [], IfOk, OnErr};
ghost use Rattle.ads_outside.specs.FilesState.{ReadsAll, ReadsSome};
ghost use Rattle.ads_outside.specs.Named.{bytes_of};
ghost use Rattle.ads_outside.specs.Rose.{Rose};
ghost use Rattle.description_migration.specs.Migration.{IsMigrated};
ghost use Rattle.plant_commands.specs.Migrated.{MigratesFile};
ghost use Rattle.run_tasks.specs.Outcomes.{Decides, IsOutcome};
ghost use Rattle.plant_commands.specs.FileOutcomes.{IsOfBytes, IsOfFileTask};
ghost use Rattle.run_tasks.specs.Readings.{OverFile};
ghost use Rattle.run_tasks.specs.Verdict.{verdict_of_file, verdict_of_migrate};

use ads_base::NoMemory;
use ads_outside::Files;
use cli_words::Text;
use description_migration::migrate;
use run_tasks::{Outcome, Status, bad_description, bytes_of_file};
use std::alloc::Global;

/// The outcome of `migrate` over its file, for this number of signals.
#[tactic(auto, using(run_tasks::proofs::ReadLemmas::some_of_one))]
pub fn migrate_file<F: Files>(
    alloc: Global,
    description: &Text,
    signals: u32,
    files: &mut F,
) -> Result<Outcome, NoMemory>
    ensures decided { IfOk result (λ o. OverFile (F.state files.old).held (λ held.
        Decides (verdict_of_file (verdict_of_migrate signals) (bytes_of held description.now))
        (Rose (F.state files.old).faults (F.state files.new).faults) o)) }
    ensures migrated { IfOk result (λ o. o.status ≡ Status.Done
        → MigratesFile signals description.now (F.state files.old).held o.text) }
    ensures plain { IfOk result (λ o. IsOfFileTask o.status) }
    ensures reads { IfOk result (λ o. ReadsAll (F.state files.old).names (F.state files.new).names (description.now ∷ [])) }
    ensures reads_some { OnErr result (ReadsSome (F.state files.old).names (F.state files.new).names (description.now ∷ [])) }
    ensures fault { IfOk result (λ o. o.status ≡ Status.ReadFault
        → Rose (F.state files.old).faults (F.state files.new).faults) }
    ensures held { (F.state files.new).held ≡ (F.state files.old).held }
{
    match bytes_of_file(alloc, files, description) {
        Err(e) => Err(e),
        Ok(Err(told)) => Ok(told),
        Ok(Ok(bytes)) => match migrate_bytes(alloc, bytes.as_slice(), signals) {
            Err(e) => Err(e),
            Ok(outcome) => Ok(outcome),
        },
    }
}

// The outcome of `migrate` over the bytes of a description.
fn migrate_bytes(alloc: Global, bytes: &[u8], signals: u32) -> Result<Outcome, NoMemory>
    ensures is { IfOk result (IsOutcome (verdict_of_migrate signals bytes.now)) }
    ensures migrated { IfOk result (λ o. o.status ≡ Status.Done → IsMigrated signals bytes.now o.text) }
    ensures status { IfOk result (λ o. IsOfBytes o.status) }
{
    match migrate(alloc, bytes, signals) {
        Err(e) => Err(e),
        Ok(Err(fault)) => bad_description(alloc, fault),
        Ok(Ok(text)) => Ok(Outcome {
            status: Status::Done,
            text,
        }),
    }
}

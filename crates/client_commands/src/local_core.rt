//! The core of the description of a file, which a client calls in the same process.

ghost use Rattle.std.specs.Prelude.{◌<◌, ◌^◌, ◌≡◌, ◌∷◌, [], ℕ, IfErr, IfOk, List, length};
ghost use Rattle.ads_outside.specs.FilesState.{ReadsAll};
ghost use Rattle.ads_outside.specs.Rose.{Rose};
ghost use Rattle.spec_plant.specs.Description as plant;
ghost use Rattle.run_tasks.specs.Openings.{MayOpenNothing};
ghost use Rattle.run_tasks.specs.Readings.{ReadsOne};
ghost use Rattle.run_tasks.specs.Verdict.{Verdict};
ghost use Rattle.client_commands.specs.LocalCore.{EndsUnopened, IsCoreOf};

use ads_base::{NetId, NoMemory};
use ads_outside::{Files, Sink};
use cli_words::Text;
use run_tasks::{Accepted, Status, end_without_memory, print_outcome, read_description};
use server_core::{Core, Sources};
use std::alloc::Global;

/// The NetId of a file's description, and its core; or how the run ended, since no description is accepted.
#[tactic(auto, using(spec_persistent::proofs::StoredLemmas::accepted_may_begin))]
pub fn core_of_file<F: Files, S: Sink, G: Sources>(
    alloc: Global,
    name: &Text,
    files: &mut F,
    out: &mut S,
    signals: G,
) -> Result<(NetId, Core<G>), Status>
    requires few { length (G.waves signals) < 2 ^ 32 }
    ensures opened { IfOk result (λ (net, core). IsCoreOf (G.waves signals) name.now (F.state files.old).held net core) }
    ensures silent { IfOk result (λ _. S.state out.new ≡ S.state out.old) }
    ensures ended { (made : List ℕ → plant.Description → Verdict) → IfErr result (λ s.
        EndsUnopened (length (G.waves signals)) made name.now (F.state files.old).held
        (Rose (F.state files.old).faults (F.state files.new).faults) s (S.state out.old) (S.state out.new)) }
    ensures unopened { IfErr result MayOpenNothing }
    ensures read { IfOk result (λ _. ReadsAll (F.state files.old).names (F.state files.new).names (name.now ∷ [])) }
    ensures reads { IfErr result (λ s. ReadsOne s (F.state files.old).names (F.state files.new).names name.now) }
    ensures held { (F.state files.new).held ≡ (F.state files.old).held }
    ensures read_fault { IfErr result (λ s. s ≡ Status.ReadFault
        → Rose (F.state files.old).faults (F.state files.new).faults) }
{
    match read_description(alloc, name, signals.count() as u32, files) {
        Err(NoMemory) => Err(end_without_memory(out)),
        Ok(Err(told)) => Err(print_outcome(out, told)),
        Ok(Ok(read)) => {
            let Accepted {
                bytes: _bytes,
                description,
            } = read;
            let net = description.net;
            match Core::build(alloc, description, signals) {
                Err(NoMemory) => Err(end_without_memory(out)),
                Ok(core) => Ok((net, core)),
            }
        }
    }
}

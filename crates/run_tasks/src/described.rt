//! The description of a command, read from its file.

ghost use Rattle.std.specs.Prelude.{◌≡◌, ◌≤◌, ◌∷◌, [], ℕ, IfErr, IfOk, List, OnErr};
ghost use Rattle.ads_outside.specs.FilesState.{ReadsAll, ReadsSome};
ghost use Rattle.ads_outside.specs.Named.{bytes_of};
ghost use Rattle.ads_outside.specs.Rose.{Rose};
ghost use Rattle.spec_plant.specs.Accepted.{IsAccepted};
ghost use Rattle.spec_plant.specs.Description as plant;
ghost use Rattle.type_layout.specs.Descriptions.{description_of};
ghost use Rattle.run_tasks.specs.Outcomes.{Decides, IsOfDescription, IsRead};
ghost use Rattle.run_tasks.specs.Readings.{OverFile};
ghost use Rattle.run_tasks.specs.Verdict.{Verdict, verdict_of_description_file};

use crate::file::bytes_of_file;
use crate::outcome::Outcome;
use crate::refusal::bad_description;
use crate::status::Status;
use ads_base::{NoMemory, Octets};
use ads_outside::Files;
use cli_words::Text;
use std::alloc::Global;
use symbol_file::read;
use type_layout::Description;

/// A description that is accepted, and the bytes that write it.
#[derive(Drop)]
pub struct Accepted {
    pub bytes: Octets,
    pub description: Description,
}

/// The description of a file, for this number of signals; or how the run ends, since the file gives no bytes or its
/// description is refused.
#[tactic(auto, using(crate::proofs::ReadLemmas::some_of_one))]
pub fn read_description<F: Files>(
    alloc: Global,
    name: &Text,
    signals: u32,
    files: &mut F,
) -> Result<Result<Accepted, Outcome>, NoMemory>
    ensures found { IfOk result (λ found. IfOk found (IsRead signals name.now (F.state files.old).held)) }
    ensures accepted { IfOk result (λ found. IfOk found (λ read. IsAccepted (description_of read.description) signals)) }
    ensures told { (made : List ℕ → plant.Description → Verdict) → IfOk result (λ found. IfErr found (λ o.
        OverFile (F.state files.old).held (λ held. Decides (verdict_of_description_file signals made (bytes_of held name.now))
        (Rose (F.state files.old).faults (F.state files.new).faults) o))) }
    ensures status { IfOk result (λ found. IfErr found (λ o. IsOfDescription o.status)) }
    ensures reads { IfOk result (λ found. ReadsAll (F.state files.old).names (F.state files.new).names (name.now ∷ [])) }
    ensures reads_some { OnErr result (ReadsSome (F.state files.old).names (F.state files.new).names (name.now ∷ [])) }
    ensures fault { IfOk result (λ found. IfErr found (λ o. o.status ≡ Status.ReadFault
        → Rose (F.state files.old).faults (F.state files.new).faults)) }
    ensures held { (F.state files.new).held ≡ (F.state files.old).held }
    ensures later { (F.state files.old).faults ≤ (F.state files.new).faults }
{
    match bytes_of_file(alloc, files, name) {
        Err(e) => Err(e),
        Ok(Err(told)) => Ok(Err(told)),
        Ok(Ok(bytes)) => match read(alloc, bytes.as_slice(), signals) {
            Err(e) => Err(e),
            Ok(Err(fault)) => match bad_description(alloc, fault) {
                Err(e) => Err(e),
                Ok(told) => Ok(Err(told)),
            },
            Ok(Ok(description)) => Ok(Ok(Accepted { bytes, description })),
        },
    }
}

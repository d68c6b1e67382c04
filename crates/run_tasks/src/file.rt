//! The reading of a file of a command.

ghost use Rattle.std.specs.Prelude.{◌≡◌, ◌≤◌, ◌∷◌, [], length, IfOk, OnErr, IfErr};
ghost use Rattle.ads_outside.specs.FilesState.{ReadsAll, ReadsSome};
ghost use Rattle.ads_outside.specs.Rose.{Rose};
ghost use Rattle.run_tasks.specs.Outcomes.{Finds, IsOfFile};

use crate::outcome::{Outcome, ended};
use crate::status::Status;
use ads_base::{NoMemory, Octets};
use ads_outside::{Files, Got};
use cli_words::Text;
use std::alloc::Global;

/// The bytes of a file; or how the run ends, since the file is too long or could not be read.
pub fn bytes_of_file<F: Files>(
    alloc: Global,
    files: &mut F,
    name: &Text,
) -> Result<Result<Octets, Outcome>, NoMemory>
    ensures finds { IfOk result (λ found. Finds (F.state files.old).held name.now
        (Rose (F.state files.old).faults (F.state files.new).faults) found) }
    ensures short { IfOk result (λ found. IfOk found (λ bytes. length bytes ≤ 16777216)) }
    ensures status { IfOk result (λ found. IfErr found (λ o. IsOfFile o.status)) }
    ensures fault { IfOk result (λ found. IfErr found (λ o. o.status ≡ Status.ReadFault
        → Rose (F.state files.old).faults (F.state files.new).faults)) }
    ensures named { IfOk result (λ found. ReadsAll (F.state files.old).names (F.state files.new).names (name.now ∷ [])) }
    ensures named_some { OnErr result (ReadsSome (F.state files.old).names (F.state files.new).names (name.now ∷ [])) }
    ensures held { (F.state files.new).held ≡ (F.state files.old).held }
    ensures later { (F.state files.old).faults ≤ (F.state files.new).faults }
{
    match files.read(name.as_str()) {
        Got::Bytes(bytes) => Ok(Ok(bytes)),
        Got::TooLong => {
            let told = ended(alloc, Status::TooLong)?;
            Ok(Err(told))
        }
        Got::Failed => {
            let told = ended(alloc, Status::ReadFault)?;
            Ok(Err(told))
        }
        Got::Memory => Err(NoMemory),
    }
}

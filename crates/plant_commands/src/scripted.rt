//! The description and the script of a command, read from its two files.

ghost use Rattle.std.specs.Prelude.{◌≡◌, ◌≤◌, ◌∷◌, [], IfErr, IfOk, List, OnErr, length};
ghost use Rattle.ads_outside.specs.FilesState.{ReadsAll, ReadsSome};
ghost use Rattle.ads_outside.specs.Named.{bytes_of};
ghost use Rattle.ads_outside.specs.Rose.{Rose};
ghost use Rattle.spec_machine.specs.ScriptLine.{ScriptLine};
ghost use Rattle.spec_plant.specs.Accepted.{IsAccepted};
ghost use Rattle.type_layout.specs.Descriptions.{description_of};
ghost use Rattle.replay_script.specs.Fresh.{OpenNew};
ghost use Rattle.run_tasks.specs.Verdict.{Play, Verdict, verdict_of_both, verdict_of_file, verdict_of_script};
ghost use Rattle.plant_commands.specs.FileOutcomes.{GivesBoth, GivesScript, IsOfFileTask, IsOfScript, IsOfScriptFile, IsScriptOf};
ghost use Rattle.run_tasks.specs.Openings.{MayOpenNothing};
ghost use Rattle.run_tasks.specs.Readings.{OverFile, OverFiles, ReadsBoth};

use ads_base::NoMemory;
use ads_outside::Files;
use cli_words::Text;
use replay_script::{Script, read_script};
use run_tasks::{Accepted, Outcome, Status, bytes_of_file, ended, read_description};
use std::alloc::Global;
use type_layout::Description;

/// An accepted description, and a script.
#[derive(Drop)]
pub struct Scripted {
    pub description: Description,
    pub script: Script,
}

/// The description, for this number of signals, and the script of two files; or how the run ends. The script is read only
/// where the description is accepted.
#[tactic(auto, using(run_tasks::proofs::OpenLemmas::may_description))]
pub fn read_both<F: Files>(
    alloc: Global,
    description: &Text,
    script: &Text,
    signals: u32,
    files: &mut F,
) -> Result<Result<Scripted, Outcome>, NoMemory>
    ensures gives { (play : Play) → IfOk result (λ found. OverFiles (F.state files.old).held (λ first second.
        GivesBoth play (verdict_of_both signals play description.now script.now first second)
        (Rose (F.state files.old).faults (F.state files.new).faults) found)) }
    ensures accepted { IfOk result (λ found. IfOk found (λ both. IsAccepted (description_of both.description) signals)) }
    ensures new { IfOk result (λ found. IfOk found (λ both. OpenNew [] both.script)) }
    ensures status { IfOk result (λ found. IfErr found (λ o. IsOfFileTask o.status)) }
    ensures unopened { IfOk result (λ found. IfErr found (λ o. MayOpenNothing o.status)) }
    ensures reads_all { IfOk result (λ found. IfOk found (λ both.
        ReadsAll (F.state files.old).names (F.state files.new).names (description.now ∷ script.now ∷ []))) }
    ensures reads { IfOk result (λ found. IfErr found (λ o.
        ReadsBoth o.status (F.state files.old).names (F.state files.new).names description.now script.now)) }
    ensures reads_some { OnErr result (ReadsSome (F.state files.old).names (F.state files.new).names (description.now ∷ script.now ∷ [])) }
    ensures fault { IfOk result (λ found. IfErr found (λ o. o.status ≡ Status.ReadFault
        → Rose (F.state files.old).faults (F.state files.new).faults)) }
    ensures held { (F.state files.new).held ≡ (F.state files.old).held }
{
    match read_description(alloc, description, signals, files) {
        Err(e) => Err(e),
        Ok(Err(told)) => Ok(Err(told)),
        Ok(Ok(read)) => match read_file(alloc, script, files) {
            Err(e) => Err(e),
            Ok(Err(told)) => Ok(Err(told)),
            Ok(Ok(script)) => {
                let Accepted {
                    bytes: _bytes,
                    description,
                } = read;
                Ok(Ok(Scripted {
                    description,
                    script,
                }))
            }
        },
    }
}

// The script of a file; or how the run ends.
#[tactic(auto, using(run_tasks::proofs::ReadLemmas::some_of_one, run_tasks::proofs::OpenLemmas::may_file))]
fn read_file<F: Files>(
    alloc: Global,
    script: &Text,
    files: &mut F,
) -> Result<Result<Script, Outcome>, NoMemory>
    ensures gives { (play : List ScriptLine → Verdict) → IfOk result (λ found. OverFile (F.state files.old).held (λ second.
        GivesScript play (verdict_of_file (verdict_of_script play) (bytes_of second script.now))
        (Rose (F.state files.old).faults (F.state files.new).faults) found)) }
    ensures new { IfOk result (λ found. IfOk found (OpenNew [])) }
    ensures status { IfOk result (λ found. IfErr found (λ o. IsOfScriptFile o.status)) }
    ensures unopened { IfOk result (λ found. IfErr found (λ o. MayOpenNothing o.status)) }
    ensures reads { IfOk result (λ found. ReadsAll (F.state files.old).names (F.state files.new).names (script.now ∷ [])) }
    ensures reads_some { OnErr result (ReadsSome (F.state files.old).names (F.state files.new).names (script.now ∷ [])) }
    ensures later { (F.state files.old).faults ≤ (F.state files.new).faults }
    ensures fault { IfOk result (λ found. IfErr found (λ o. o.status ≡ Status.ReadFault
        → Rose (F.state files.old).faults (F.state files.new).faults)) }
    ensures held { (F.state files.new).held ≡ (F.state files.old).held }
{
    match bytes_of_file(alloc, files, script) {
        Err(e) => Err(e),
        Ok(Err(told)) => Ok(Err(told)),
        Ok(Ok(bytes)) => match script_of(alloc, bytes.as_slice()) {
            Err(e) => Err(e),
            Ok(Err(told)) => Ok(Err(told)),
            Ok(Ok(script)) => Ok(Ok(script)),
        },
    }
}

/// The script of these bytes; or how the run ends, since a line is off the grammar.
pub fn script_of(alloc: Global, bytes: &[u8]) -> Result<Result<Script, Outcome>, NoMemory>
    requires short { length bytes.now ≤ 16777216 }
    ensures is { (play : List ScriptLine → Verdict) → IfOk result (IsScriptOf play (verdict_of_script play bytes.now)) }
    ensures new { IfOk result (λ found. IfOk found (OpenNew [])) }
    ensures status { IfOk result (λ found. IfErr found (λ o. IsOfScript o.status)) }
    ensures unopened { IfOk result (λ found. IfErr found (λ o. MayOpenNothing o.status)) }
{
    match read_script(alloc, bytes) {
        Err(e) => Err(e),
        Ok(Ok(script)) => Ok(Ok(script)),
        Ok(Err(number)) => match ended(alloc, Status::BadScript(number)) {
            Err(e) => Err(e),
            Ok(told) => Ok(Err(told)),
        },
    }
}

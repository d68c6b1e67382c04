//! A script that is played on the wide server of a description.

ghost use Rattle.std.specs.Prelude.{◌≤◌, ◌<◌, ◌^◌, [], IfOk, IfSome, length};
ghost use Rattle.spec_plant.specs.Accepted.{IsAccepted};
ghost use Rattle.type_layout.specs.Descriptions.{description_of};
ghost use Rattle.replay_script.specs.Fresh.{OpenNew};

use crate::fault::Fault;
use ads_base::{NoMemory, Octets};
use port_device::Manner;
use replay_script::{Script, log_text, play, read_script};
use server_core::{Core, Profile, Sources};
use signals::Signal;
use std::alloc::Global;
use std::thread::Threads;
use symbol_file::read;
use type_layout::{Description, Rights};

// The longest script.
const LONGEST: usize = 16_777_216;

/// The log of a script's play on the wide server of a description without signals, where others have this right.
pub fn log_of<T: Threads + Sync>(
    rt: &T,
    alloc: Global,
    others: Option<Rights>,
    description: &[u8],
    script: &[u8],
) -> Result<Octets, Fault> {
    if script.len() > LONGEST {
        return Err(Fault::Off("a script is too long"));
    }
    let signals: Vec<Box<dyn Signal>> = Vec::new(alloc);
    let Ok(description) = read(alloc, description, signals.count() as u32)? else {
        return Err(Fault::Off("the description is refused"));
    };
    let Some(script) = script_of(alloc, script)? else {
        return Err(Fault::Off("a script is off the grammar"));
    };
    Ok(played(rt, alloc, others, description, signals, script)?)
}

// The script of these bytes.
fn script_of(alloc: Global, bytes: &[u8]) -> Result<Option<Script>, NoMemory>
    requires { length bytes.now ≤ 16777216 }
    ensures { IfOk result (λ found. IfSome found (OpenNew [])) }
{
    match read_script(alloc, bytes) {
        Err(e) => Err(e),
        Ok(Ok(script)) => Ok(Some(script)),
        Ok(Err(_line)) => Ok(None),
    }
}

// The log of its play.
#[tactic(auto, using(spec_persistent::proofs::StoredLemmas::accepted_may_begin))]
fn played<T: Threads + Sync, G: Sources>(
    rt: &T,
    alloc: Global,
    others: Option<Rights>,
    description: Description,
    signals: G,
    script: Script,
) -> Result<Octets, NoMemory>
    requires new { OpenNew [] script }
    requires few { length (G.waves signals) < 2 ^ 32 }
    requires accepted { IsAccepted (description_of description) (length (G.waves signals)) }
{
    let profile = Profile {
        manner: Manner::Wide,
        others,
    };
    let mut core = Core::build_in(alloc, profile, description, signals)?;
    let log = play(rt, alloc, &mut core, script)?;
    let mut text = Octets::new(alloc);
    log_text(alloc, &log, core.reload_notes(), &mut text)?;
    Ok(text)
}

//! The play of a script on a description: what is printed of it.

ghost use Rattle.std.specs.Prelude.{◌≡◌, ◌<◌, ◌^◌, ◌++◌, [], IfOk, length};
ghost use Rattle.spec_plant.specs.Accepted.{IsAccepted};
ghost use Rattle.spec_machine.specs.LogText.{log_text_of};
ghost use Rattle.spec_machine.specs.Summary.{summary_of};
ghost use Rattle.spec_machine.specs.SummaryText.{summary_text_of};
ghost use Rattle.type_layout.specs.Descriptions.{description_of};
ghost use Rattle.spec_server.specs.Server.{server_text};
ghost use Rattle.run_tasks.specs.Load.{counts_of_play};
ghost use Rattle.ads_served.specs.Standing.{Standing};
ghost use Rattle.replay_script.specs.Fresh.{OpenNew};
ghost use Rattle.server_core.specs.Served.{World, Client};
ghost use Rattle.server_core.specs.Serves.{StandsAt};

use crate::summary::{put_summary, summary_line};
use ads_base::{NoMemory, Octets};
use ads_outside::Log;
use replay_script::{Script, log_text};
use server_core::{Core, Sources};
use std::alloc::Global;
use std::thread::Threads;
use type_layout::Description;

/// The printed text of a script's play: its log, and the summary.
#[tactic(auto, using(spec_persistent::proofs::StoredLemmas::accepted_may_begin))]
pub fn play<T: Threads + Sync, G: Sources>(
    rt: &T,
    alloc: Global,
    description: Description,
    signals: G,
    script: Script,
) -> Result<Octets, NoMemory>
    requires new { OpenNew [] script }
    requires few { length (G.waves signals) < 2 ^ 32 }
    requires accepted { IsAccepted (description_of description) (length (G.waves signals)) }
    ensures { IfOk result (λ text. text ≡ server_text (description_of description) (G.waves signals) script) }
{
    let mut core = Core::build(alloc, description, signals)?;
    let log = replay_script::play(rt, alloc, &mut core, script)?;
    let text = text_of(alloc, &core, &log)?;
    Ok(text)
}

/// The summary line of a script's play.
#[tactic(auto, using(spec_persistent::proofs::StoredLemmas::accepted_may_begin))]
pub fn play_counts<T: Threads + Sync, G: Sources>(
    rt: &T,
    alloc: Global,
    description: Description,
    signals: G,
    script: Script,
) -> Result<Octets, NoMemory>
    requires new { OpenNew [] script }
    requires few { length (G.waves signals) < 2 ^ 32 }
    requires accepted { IsAccepted (description_of description) (length (G.waves signals)) }
    ensures { IfOk result (λ text. text ≡ counts_of_play (description_of description) (G.waves signals) script) }
{
    let mut core = Core::build(alloc, description, signals)?;
    let _log = replay_script::play(rt, alloc, &mut core, script)?;
    let text = summary_line(alloc, &core)?;
    Ok(text)
}

// The text of a log and of what it comes to.
fn text_of<S: Sources>(alloc: Global, core: &Core<S>, log: &Log) -> Result<Octets, NoMemory>
    ensures { IfOk result (λ text. (x : Standing World Client) → StandsAt core.now x
        → text ≡ log_text_of x.notes log.now ++ summary_text_of (summary_of x.running.state)) }
{
    let mut text = Octets::new(alloc);
    log_text(alloc, log, core.reload_notes(), &mut text)?;
    put_summary(alloc, core, &mut text)?;
    Ok(text)
}

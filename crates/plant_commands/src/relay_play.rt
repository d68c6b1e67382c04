//! The play of a script on the relay of a description: what is printed of it.

ghost use Rattle.std.specs.Prelude.{◌≡◌, ◌++◌, [], IfOk};
ghost use Rattle.spec_machine.specs.LogText.{log_text_of};
ghost use Rattle.spec_relay.specs.RelayState.{relay_start};
ghost use Rattle.spec_relay.specs.RelaySummary.{relay_text};
ghost use Rattle.type_layout.specs.Descriptions.{description_of};
ghost use Rattle.replay_script.specs.Fresh.{OpenNew};
ghost use Rattle.ams_relay.specs.Relays.{RelayStanding, StandsAt};
ghost use Rattle.run_tasks.specs.Outcomes.{IsOutcome};
ghost use Rattle.run_tasks.specs.Service.{relay_counts};
ghost use Rattle.run_tasks.specs.Verdict.{over_relay};

use crate::relay_summary::relay_summary_line;
use crate::scripted::Scripted;
use ads_base::{NoMemory, Octets};
use ads_outside::{Log, ReloadNotes};
use ams_relay::Relay;
use replay_script::{Script, log_text};
use run_tasks::{Outcome, Status};
use std::alloc::Global;
use std::thread::Threads;
use type_layout::Description;

/// The outcome of a script that is played on the relay of a description.
pub fn outcome_of_relay<T: Threads + Sync>(
    rt: &T,
    alloc: Global,
    both: Scripted,
) -> Result<Outcome, NoMemory>
    requires new { OpenNew [] both.script }
    ensures is { IfOk result (IsOutcome (over_relay (description_of both.description) both.script)) }
    ensures status { IfOk result (λ o. o.status ≡ Status.Done) }
{
    let Scripted {
        description,
        script,
    } = both;
    match play_relay(rt, alloc, description, script) {
        Err(e) => Err(e),
        Ok(text) => Ok(Outcome {
            status: Status::Done,
            text,
        }),
    }
}

// The printed text of a script's play: its log, and the summary.
fn play_relay<T: Threads + Sync>(
    rt: &T,
    alloc: Global,
    description: Description,
    script: Script,
) -> Result<Octets, NoMemory>
    requires new { OpenNew [] script }
    ensures { IfOk result (λ text. text ≡ relay_text (relay_start (description_of description)) script) }
{
    let mut relay = Relay::build(alloc, description)?;
    let log = replay_script::play(rt, alloc, &mut relay, script)?;
    let text = text_of(alloc, &relay, &log)?;
    Ok(text)
}

// The text of a log and of what it comes to. A relay notes nothing of a reload.
fn text_of(alloc: Global, relay: &Relay, log: &Log) -> Result<Octets, NoMemory>
    ensures { IfOk result (λ text. (x : RelayStanding) → StandsAt relay.now x
        → text ≡ log_text_of [] log.now ++ relay_counts x.running.state) }
{
    let mut text = Octets::new(alloc);
    let none = ReloadNotes::new(alloc);
    log_text(alloc, log, &none, &mut text)?;
    let line = relay_summary_line(alloc, relay)?;
    text.put(alloc, line.as_slice())?;
    Ok(text)
}

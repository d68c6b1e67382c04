//! What is printed of a play over a store.

ghost use Rattle.std.specs.Prelude.{◌≡◌, ◌++◌, IfOk, OnOk};
ghost use Rattle.spec_machine.specs.LogText.{log_text_of};
ghost use Rattle.spec_machine.specs.Summary.{summary_of};
ghost use Rattle.spec_machine.specs.SummaryText.{summary_text_of};
ghost use Rattle.ads_served.specs.Standing.{Standing};
ghost use Rattle.replay_script.specs.Shown.{summary_from};
ghost use Rattle.server_core.specs.Counts.{counts_in};
ghost use Rattle.server_core.specs.Served.{World, Client};
ghost use Rattle.server_core.specs.Serves.{StandsAt};
ghost use Rattle.keep_play.specs.KeptSaves.{saved_line};

use ads_base::{NoMemory, Octets};
use ads_outside::Log;
use replay_script::{Counts, log_text, put_counted, summary_text};
use server_core::{Core, Sources, Summary};
use std::alloc::Global;

/// The text of a log and of what it comes to, and the line of so many saves.
pub(crate) fn text_of<S: Sources>(
    alloc: Global,
    core: &Core<S>,
    log: &Log,
    saved: u64,
) -> Result<Octets, NoMemory>
    ensures { IfOk result (λ text. (x : Standing World Client) → StandsAt core.now x
        → text ≡ (log_text_of x.notes log.now ++ summary_text_of (summary_of x.running.state)) ++ saved_line saved) }
{
    let mut text = Octets::new(alloc);
    log_text(alloc, log, core.reload_notes(), &mut text)?;
    summary_text(alloc, &counts_of(core.summary()), &mut text)?;
    put_saved(alloc, saved, &mut text)?;
    Ok(text)
}

fn put_saved(alloc: Global, saved: u64, out: &mut Octets) -> Result<(), NoMemory>
    ensures { OnOk result (out.new ≡ out.old ++ saved_line saved) }
{
    put_counted(alloc, out, b"saved ", saved)?;
    out.put(alloc, b"\n")?;
    Ok(())
}

fn counts_of(summary: Summary) -> Counts
    ensures { summary_from result ≡ counts_in summary }
{
    Counts {
        connections: summary.connections,
        requests: summary.requests,
        replies: summary.replies,
        samples: summary.samples,
        accepted: summary.accepted,
        refused: summary.refused,
    }
}

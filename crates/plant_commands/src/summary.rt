//! The counts of a server, as they are printed.

ghost use Rattle.std.specs.Prelude.{◌≡◌, ◌++◌, IfOk, OnOk};
ghost use Rattle.spec_machine.specs.Summary.{summary_of};
ghost use Rattle.spec_machine.specs.SummaryText.{summary_text_of};
ghost use Rattle.ads_served.specs.Standing.{Standing};
ghost use Rattle.replay_script.specs.Shown.{summary_from};
ghost use Rattle.server_core.specs.Counts.{counts_in};
ghost use Rattle.server_core.specs.Served.{World, Client};
ghost use Rattle.server_core.specs.Serves.{StandsAt};

use ads_base::{NoMemory, Octets};
use replay_script::{Counts, summary_text};
use server_core::{Core, Sources, Summary};
use std::alloc::Global;

/// Appends the summary line of a core.
pub fn put_summary<S: Sources>(
    alloc: Global,
    core: &Core<S>,
    out: &mut Octets,
) -> Result<(), NoMemory>
    ensures { OnOk result ((x : Standing World Client) → StandsAt core.now x
        → out.new ≡ out.old ++ summary_text_of (summary_of x.running.state)) }
{
    summary_text(alloc, &counts_of(core.summary()), out)?;
    Ok(())
}

/// The summary line of a core.
pub fn summary_line<S: Sources>(alloc: Global, core: &Core<S>) -> Result<Octets, NoMemory>
    ensures { IfOk result (λ text. (x : Standing World Client) → StandsAt core.now x
        → text ≡ summary_text_of (summary_of x.running.state)) }
{
    let mut text = Octets::new(alloc);
    put_summary(alloc, core, &mut text)?;
    Ok(text)
}

fn counts_of(summary: Summary) -> Counts
    ensures { summary_from result ≡ counts_in summary }
{
    Counts {
        connections: summary.connections,
        requests: summary.requests,
        replies: summary.replies,
        samples: summary.samples,
        accepted: summary.accepted,
        refused: summary.refused,
    }
}

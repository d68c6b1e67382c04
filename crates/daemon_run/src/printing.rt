//! What is printed of a plant that was served.

ghost use Rattle.std.specs.Prelude.{◌≡◌, ◌++◌, IfOk, OnOk};
ghost use Rattle.ads_served.specs.Standing.{Standing};
ghost use Rattle.server_core.specs.Served.{World, Client};
ghost use Rattle.server_core.specs.Serves.{StandsAt};
ghost use Rattle.keep_play.specs.KeptSaves.{saved_line};
ghost use Rattle.plant_commands.specs.FileOutcomes.{IsOfService};
ghost use Rattle.run_tasks.specs.Prints.{PrintsEnding};
ghost use Rattle.run_tasks.specs.Service.{server_counts, counts_and_line};
ghost use Rattle.daemon_run.specs.Printed.{IsOfPlant, PrintsSo, counts_saved};

use ads_base::{NoMemory, Octets};
use ads_outside::{End, Sink};
use plant_commands::{print_counts, summary_line};
use replay_script::put_counted;
use run_tasks::{LINK_FAULT_LINE, Status, end_without_memory, print_and_end};
use server_core::{Core, Sources};
use std::alloc::Global;

/// Prints what a core comes to whose wire ended so, and with a store how many saves were done; the run ends with this status
/// where the wire had no more events.
pub(crate) fn print_end<S: Sink, G: Sources>(
    alloc: Global,
    core: &Core<G>,
    ended: End,
    done: Status,
    saved: Option<u64>,
    out: &mut S,
) -> Status
    ensures service { IsOfService done → IsOfService result }
    ensures status { IsOfPlant done → IsOfPlant result }
    ensures store_fault { result ≡ Status.StoreFault → done ≡ Status.StoreFault }
    ensures prints { PrintsSo ended done saved (StandsAt core.now) result (S.state out.old) (S.state out.new) }
{
    match ended {
        End::Done => print_counted(alloc, core, done, saved, out),
        End::Budget => print_counted(alloc, core, Status::Budget, saved, out),
        End::LinkFault => print_and_end(out, LINK_FAULT_LINE, Status::LinkFault),
        End::Memory => end_without_memory(out),
    }
}

// The counts, and the last line of the status.
fn print_counted<S: Sink, G: Sources>(
    alloc: Global,
    core: &Core<G>,
    status: Status,
    saved: Option<u64>,
    out: &mut S,
) -> Status
    ensures service { IsOfService status → IsOfService result }
    ensures status { IsOfPlant status → IsOfPlant result }
    ensures store_fault { result ≡ Status.StoreFault → status ≡ Status.StoreFault }
    ensures prints { (x : Standing World Client) → StandsAt core.now x
        → PrintsEnding (counts_and_line (counts_saved saved (server_counts x.running.state)) status) result (S.state out.old) (S.state out.new) }
{
    match counts_text(alloc, core, saved) {
        Ok(text) => print_counts(alloc, text, status, out),
        Err(NoMemory) => end_without_memory(out),
    }
}

// The line of the counts, and with a store that of the saves.
fn counts_text<G: Sources>(
    alloc: Global,
    core: &Core<G>,
    saved: Option<u64>,
) -> Result<Octets, NoMemory>
    ensures { IfOk result (λ text. (x : Standing World Client) → StandsAt core.now x
        → text ≡ counts_saved saved (server_counts x.running.state)) }
{
    let line = summary_line(alloc, core)?;
    match saved {
        None => Ok(line),
        Some(saved) => with_saved(alloc, line, saved),
    }
}

fn with_saved(alloc: Global, line: Octets, saved: u64) -> Result<Octets, NoMemory>
    ensures { IfOk result (λ text. text ≡ line ++ saved_line saved) }
{
    let mut text = line;
    put_counted(alloc, &mut text, b"saved ", saved)?;
    text.put(alloc, b"\n")?;
    Ok(text)
}

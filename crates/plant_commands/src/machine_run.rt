//! A machine is served over a wire, and its counts are printed.

ghost use Rattle.std.specs.Prelude.{ℕ, List};
ghost use Rattle.ads_served.specs.Standing.{Standing};
ghost use Rattle.plant_commands.specs.FileOutcomes.{IsOfService};
ghost use Rattle.plant_commands.specs.Machine.{RunsMachine, StandsAnew, TellsCounts};
ghost use Rattle.plant_commands.specs.Serving.{EndsStarted};
ghost use Rattle.run_tasks.specs.Prints.{PrintsEnding};
ghost use Rattle.run_tasks.specs.Service.{counts_and_line};
ghost use Rattle.spec_machine.specs.MachineState.{MachineState};

use crate::counting::Counting;
use crate::serving::{print_counts, start_and_tell};
use ads_base::NoMemory;
use ads_outside::{End, Sink, Wire};
use ads_served::Served;
use run_tasks::{LINK_FAULT_LINE, Status, end_without_memory, print_and_end};
use serve_loop::serve;
use std::alloc::Global;
use std::thread::Threads;

/// Starts the wire for the description with this name and these bytes, and serves the machine over it until so many
/// events were taken.
pub fn start_machine<T: Threads + Sync, W: Wire, S: Sink, M: Served + Counting>(
    rt: &T,
    alloc: Global,
    listen: &str,
    name: &str,
    first: &[u8],
    machine: &mut M,
    wire: &mut W,
    events: u64,
    out: &mut S,
) -> Status
    ensures status { IsOfService result }
    ensures ends { (counts : MachineState M.World M.Client → List ℕ) → TellsCounts M.tells M.serves counts
        → (x : Standing M.World M.Client) → StandsAnew (M.serves machine.old) x
        → EndsStarted (record { listen = listen.now; name = name.now; first = first.now })
        (λ between started. RunsMachine M.steps counts x events result between (S.state out.new) started (W.state wire.new).history)
        result (S.state out.old) (S.state out.new) (W.state wire.old).history (W.state wire.new).history }
{
    match start_and_tell(listen, name, first, wire, out) {
        Ok(()) => run_machine(rt, alloc, machine, wire, events, out),
        Err(status) => status,
    }
}

// The machine is served, and what that comes to is printed.
fn run_machine<T: Threads + Sync, W: Wire, S: Sink, M: Served + Counting>(
    rt: &T,
    alloc: Global,
    machine: &mut M,
    wire: &mut W,
    events: u64,
    out: &mut S,
) -> Status
    ensures status { IsOfService result }
    ensures ends { (counts : MachineState M.World M.Client → List ℕ) → TellsCounts M.tells M.serves counts
        → (x : Standing M.World M.Client) → StandsAnew (M.serves machine.old) x
        → RunsMachine M.steps counts x events result (S.state out.old) (S.state out.new) (W.state wire.old).history (W.state wire.new).history }
{
    match serve(rt, alloc, machine, wire, events) {
        End::Done => print_machine(alloc, machine, Status::Done, out),
        End::Budget => print_machine(alloc, machine, Status::Budget, out),
        End::LinkFault => print_and_end(out, LINK_FAULT_LINE, Status::LinkFault),
        End::Memory => end_without_memory(out),
    }
}

// The counts and the last line of the status are printed.
fn print_machine<S: Sink, M: Served + Counting>(
    alloc: Global,
    machine: &M,
    status: Status,
    out: &mut S,
) -> Status
    ensures status { IsOfService status → IsOfService result }
    ensures prints { (counts : MachineState M.World M.Client → List ℕ) → TellsCounts M.tells M.serves counts
        → (x : Standing M.World M.Client) → M.serves machine.now x
        → PrintsEnding (counts_and_line (counts x.running.state) status) result (S.state out.old) (S.state out.new) }
{
    match machine.counts_line(alloc) {
        Ok(line) => print_counts(alloc, line, status, out),
        Err(NoMemory) => end_without_memory(out),
    }
}

//! The plant of a description that was read is served without a store.

ghost use Rattle.std.specs.Prelude.{◌<◌, ◌^◌, length, None};
ghost use Rattle.ads_served.specs.Standing.{Standing};
ghost use Rattle.server_core.specs.Profiles.{profile_of};
ghost use Rattle.spec_plant.specs.Accepted.{IsAccepted};
ghost use Rattle.type_layout.specs.Descriptions.{description_of};
ghost use Rattle.server_core.specs.Served.{World, Client, served_step};
ghost use Rattle.server_core.specs.Serves.{StandsAt};
ghost use Rattle.run_tasks.specs.Service.{server_counts};
ghost use Rattle.plant_commands.specs.FileOutcomes.{IsOfService};
ghost use Rattle.plant_commands.specs.Machine.{RunsMachine, StandsAnew};
ghost use Rattle.plant_commands.specs.Serving.{EndsService, EndsStarted};
ghost use Rattle.daemon_run.specs.Endless.{endless};
ghost use Rattle.daemon_run.specs.Plant.{plant_of, service_of, serving};

use crate::printing::print_end;
use ads_base::NoMemory;
use ads_outside::{Sink, Wire};
use cli_words::Text;
use keep_loop::{Told, serve_telling};
use plant_commands::start_and_tell;
use run_tasks::{Accepted, Status, end_without_memory};
use server_core::{Core, Profile, Sources};
use std::alloc::Global;
use std::thread::Threads;

/// Serves a description that was read over a wire, until that ends.
#[tactic(auto, using(spec_persistent::proofs::StoredLemmas::accepted_may_begin))]
pub(crate) fn serve_read<T: Threads + Sync, W: Wire, S: Sink, G: Sources, N: Told<Core<G>> + Drop>(
    rt: &T,
    alloc: Global,
    profile: Profile,
    name: &Text,
    listen: &Text,
    read: Accepted,
    wire: &mut W,
    out: &mut S,
    told: N,
    signals: G,
) -> Status
    requires few { length (G.waves signals) < 2 ^ 32 }
    requires accepted { IsAccepted (description_of read.description) (length (G.waves signals)) }
    ensures ends { EndsService (service_of (serving (profile_of profile) (G.waves signals) None 1)
        (plant_of name.now listen.now read.bytes (description_of read.description))) result
        (S.state out.old) (S.state out.new) (W.state wire.old).history (W.state wire.new).history }
    ensures status { IsOfService result }
{
    let Accepted { bytes, description } = read;
    match Core::build_in(alloc, profile, description, signals) {
        Err(NoMemory) => end_without_memory(out),
        Ok(built) => {
            let mut core = built;
            serve_core(
                rt,
                alloc,
                listen.as_str(),
                name.as_str(),
                bytes.as_slice(),
                &mut core,
                wire,
                out,
                told,
            )
        }
    }
}

// Starts the wire, and serves a core over it.
fn serve_core<T: Threads + Sync, W: Wire, S: Sink, G: Sources, N: Told<Core<G>> + Drop>(
    rt: &T,
    alloc: Global,
    listen: &str,
    name: &str,
    first: &[u8],
    core: &mut Core<G>,
    wire: &mut W,
    out: &mut S,
    told: N,
) -> Status
    ensures status { IsOfService result }
    ensures ends { (x : Standing World Client) → StandsAnew (StandsAt core.old) x
        → EndsStarted (record { listen = listen.now; name = name.now; first = first.now })
        (λ between started. RunsMachine served_step server_counts x endless result between (S.state out.new) started (W.state wire.new).history)
        result (S.state out.old) (S.state out.new) (W.state wire.old).history (W.state wire.new).history }
{
    match start_and_tell(listen, name, first, wire, out) {
        Ok(()) => run_core(rt, alloc, core, wire, out, told),
        Err(status) => status,
    }
}

// A core is served, and what that comes to is printed.
fn run_core<T: Threads + Sync, W: Wire, S: Sink, G: Sources, N: Told<Core<G>> + Drop>(
    rt: &T,
    alloc: Global,
    core: &mut Core<G>,
    wire: &mut W,
    out: &mut S,
    told: N,
) -> Status
    ensures status { IsOfService result }
    ensures ends { (x : Standing World Client) → StandsAnew (StandsAt core.old) x
        → RunsMachine served_step server_counts x endless result (S.state out.old) (S.state out.new) (W.state wire.old).history (W.state wire.new).history }
{
    let ended = serve_telling(rt, alloc, core, wire, told, u64::MAX);
    print_end(alloc, core, ended, Status::Done, None, out)
}

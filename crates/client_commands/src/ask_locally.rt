//! A client asks the server of a description in the same process.

ghost use Rattle.std.specs.Prelude.{◌<◌, ◌^◌, ◌≡◌, [], List, length};
ghost use Rattle.ads_outside.specs.Named.{bytes_of};
ghost use Rattle.ads_outside.specs.Rose.{Rose};
ghost use Rattle.spec_plant.specs.Description as plant;
ghost use Rattle.spec_server.specs.Server.{server_start};
ghost use Rattle.local_link.specs.Link.{IsTold};
ghost use Rattle.server_core.specs.CoreState.{started};
ghost use Rattle.server_core.specs.Serves.{Serves};
ghost use Rattle.signals.specs.Wave.{Wave};
ghost use Rattle.run_tasks.specs.Asking.{local_calling};
ghost use Rattle.run_tasks.specs.BeforeRun.{IsBeforeRun};
ghost use Rattle.client_commands.specs.Calling.{EndsLocalCall};
ghost use Rattle.run_tasks.specs.EndsOr.{EndsOrBy};
ghost use Rattle.run_tasks.specs.Fits.{FitsClient, FitsClientTask};
ghost use Rattle.run_tasks.specs.Readings.{OverFile, ReadsOne};
ghost use Rattle.run_tasks.specs.Verdict.{CallsLocally, verdict_of_description_file};

use crate::address::{LOCAL_ADDRESS, call_addrs};
use crate::ask_link::ask_over;
use crate::local_core::core_of_file;
use ads_base::NetId;
use ads_outside::{Files, Sink};
use cli_words::{ClientWords, Text};
use local_link::{LocalLink, OnThreads, Steps};
use run_tasks::{ClientTask, Status};
use server_core::{Core, Sources};
use std::alloc::Global;
use std::thread::Threads;

/// A client asks the server of the description of a file, in the same process.
pub fn ask_locally<T: Threads + Sync, F: Files, S: Sink, G: Sources>(
    rt: &T,
    alloc: Global,
    what: &ClientTask,
    client: &ClientWords,
    description: &Text,
    files: &mut F,
    out: &mut S,
    signals: G,
) -> Status
    requires few { length (G.waves signals) < 2 ^ 32 }
    requires what { FitsClientTask what.now }
    requires client { FitsClient client.now }
    ensures ends { OverFile (F.state files.old).held (λ held.
        EndsOrBy CallsLocally (λ x. EndsLocalCall x result (S.state out.old) (S.state out.new)) (Unit {0})
        (verdict_of_description_file (length (G.waves signals)) (λ bytes d. CallsLocally (local_calling d (G.waves signals) what.now client.now))
        (bytes_of held description.now))
        (Rose (F.state files.old).faults (F.state files.new).faults) result (S.state out.old) (S.state out.new)) }
    ensures reads { ReadsOne result (F.state files.old).names (F.state files.new).names description.now }
    ensures held { (F.state files.new).held ≡ (F.state files.old).held }
    ensures read_fault { result ≡ Status.ReadFault → Rose (F.state files.old).faults (F.state files.new).faults }
{
    match core_of_file(alloc, description, files, out, signals) {
        Err(status) => status,
        Ok((net, core)) => ask_core(rt, alloc, what, client, net, core, out),
    }
}

// The server of a core is asked, whose description has this NetId.
fn ask_core<T: Threads + Sync, S: Sink, G: Sources>(
    rt: &T,
    alloc: Global,
    what: &ClientTask,
    client: &ClientWords,
    net: NetId,
    core: Core<G>,
    out: &mut S,
) -> Status
    requires what { FitsClientTask what.now }
    requires client { FitsClient client.now }
    ensures ends { (d : plant.Description) (waves : List Wave) → Serves core (started d waves) → net.bytes ≡ d.net
        → EndsLocalCall (local_calling d waves what.now client.now) result (S.state out.old) (S.state out.new) }
    ensures run { IsBeforeRun result → ⊥ }
{
    ask_by(OnThreads::new(rt), alloc, what, client, net, core, out)
}

// The same, by who makes the core's events.
fn ask_by<P: Steps, S: Sink, G: Sources>(
    steps: P,
    alloc: Global,
    what: &ClientTask,
    client: &ClientWords,
    net: NetId,
    core: Core<G>,
    out: &mut S,
) -> Status
    requires can { P.can_step steps }
    requires what { FitsClientTask what.now }
    requires client { FitsClient client.now }
    ensures ends { (d : plant.Description) (waves : List Wave) → Serves core (started d waves) → net.bytes ≡ d.net
        → EndsLocalCall (local_calling d waves what.now client.now) result (S.state out.old) (S.state out.new) }
    ensures run { IsBeforeRun result → ⊥ }
{
    let mut link = LocalLink::new(steps, alloc, core);
    ask_link(alloc, what, client, net, &mut link, out)
}

// The server behind a link in the same process is asked, which has not been called.
fn ask_link<P: Steps, S: Sink, G: Sources>(
    alloc: Global,
    what: &ClientTask,
    client: &ClientWords,
    net: NetId,
    link: &mut LocalLink<P, G>,
    out: &mut S,
) -> Status
    requires what { FitsClientTask what.now }
    requires client { FitsClient client.now }
    ensures ends { (d : plant.Description) (waves : List Wave) → IsTold link.old (server_start d waves) [] → net.bytes ≡ d.net
        → EndsLocalCall (local_calling d waves what.now client.now) result (S.state out.old) (S.state out.new) }
    ensures run { IsBeforeRun result → ⊥ }
{
    let addrs = call_addrs(net, client);
    ask_over(alloc, what, addrs, LOCAL_ADDRESS, link, out)
}

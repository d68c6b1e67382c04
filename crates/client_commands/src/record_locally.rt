//! `record --local`: samples of the server of a description in the same process are put into the table of a store.

ghost use Rattle.std.specs.Prelude.{◌<◌, ◌^◌, ◌≡◌, [], List, length};
ghost use Rattle.ads_outside.specs.Named.{bytes_of};
ghost use Rattle.ads_outside.specs.Rose.{Rose};
ghost use Rattle.signals.specs.Wave.{Wave};
ghost use Rattle.spec_plant.specs.Description as plant;
ghost use Rattle.spec_server.specs.Server.{server_start};
ghost use Rattle.local_link.specs.Link.{IsTold};
ghost use Rattle.server_core.specs.CoreState.{started};
ghost use Rattle.server_core.specs.Serves.{Serves};
ghost use Rattle.run_tasks.specs.BeforeRun.{IsBeforeRun};
ghost use Rattle.run_tasks.specs.EndsOr.{EndsOrBy};
ghost use Rattle.run_tasks.specs.Fits.{FitsRecord};
ghost use Rattle.run_tasks.specs.Openings.{OpensOne};
ghost use Rattle.run_tasks.specs.Readings.{OverFile, ReadsOne};
ghost use Rattle.run_tasks.specs.RecordAsked.{local_recording};
ghost use Rattle.client_commands.specs.RecordRows.{AddsRows};
ghost use Rattle.client_commands.specs.Recording.{EndsLocalRecording};
ghost use Rattle.client_commands.specs.CallUses.{keeper_used};
ghost use Rattle.run_tasks.specs.Verdict.{RecordsLocally, verdict_of_description_file};

use crate::address::{LOCAL_ADDRESS, call_addrs};
use crate::local_core::core_of_file;
use crate::record_link::record_over;
use ads_base::NetId;
use ads_outside::{Files, Sink};
use cli_words::Text;
use local_link::{LocalLink, OnThreads, Steps};
use run_tasks::{RecordTask, Status};
use sample_store::Keeper;
use server_core::{Core, Sources};
use std::alloc::Global;
use std::thread::Threads;

/// A client records from the server of the description of a file, in the same process. The keeper is called only where the
/// description is accepted.
#[tactic(auto, using(crate::proofs::RecordedRows::adds_none))]
pub fn record_locally<T: Threads + Sync, F: Files, S: Sink, K: Keeper, G: Sources>(
    rt: &T,
    alloc: Global,
    what: &RecordTask,
    description: &Text,
    files: &mut F,
    out: &mut S,
    keeper: &mut K,
    signals: G,
) -> Status
    requires few { length (G.waves signals) < 2 ^ 32 }
    requires what { FitsRecord what.now }
    ensures ends { OverFile (F.state files.old).held (λ held.
        EndsOrBy RecordsLocally (λ x. EndsLocalRecording x result (S.state out.old) (S.state out.new) (keeper_used K.state keeper.old keeper.new)) (Unit {0})
        (verdict_of_description_file (length (G.waves signals)) (λ bytes d. RecordsLocally (local_recording d (G.waves signals) what.now))
        (bytes_of held description.now))
        (Rose (F.state files.old).faults (F.state files.new).faults) result (S.state out.old) (S.state out.new)) }
    ensures reads { ReadsOne result (F.state files.old).names (F.state files.new).names description.now }
    ensures held { (F.state files.new).held ≡ (F.state files.old).held }
    ensures read_fault { result ≡ Status.ReadFault → Rose (F.state files.old).faults (F.state files.new).faults }
    ensures opens { OpensOne result (K.state keeper.old).names (K.state keeper.new).names what.now.store }
    ensures grows { AddsRows (K.state keeper.old).rows (K.state keeper.new).rows }
    ensures before_run { IsBeforeRun result → keeper.new ≡ keeper.old }
{
    match core_of_file(alloc, description, files, out, signals) {
        Err(status) => status,
        Ok((net, core)) => record_core(rt, alloc, what, net, core, out, keeper),
    }
}

// From the server of a core, whose description has this NetId.
fn record_core<T: Threads + Sync, S: Sink, K: Keeper, G: Sources>(
    rt: &T,
    alloc: Global,
    what: &RecordTask,
    net: NetId,
    core: Core<G>,
    out: &mut S,
    keeper: &mut K,
) -> Status
    requires what { FitsRecord what.now }
    ensures ends { (d : plant.Description) (waves : List Wave) → Serves core (started d waves) → net.bytes ≡ d.net
        → EndsLocalRecording (local_recording d waves what.now) result (S.state out.old) (S.state out.new)
        (keeper_used K.state keeper.old keeper.new) }
    ensures opens { OpensOne result (K.state keeper.old).names (K.state keeper.new).names what.now.store }
    ensures grows { AddsRows (K.state keeper.old).rows (K.state keeper.new).rows }
    ensures run { IsBeforeRun result → ⊥ }
{
    record_by(OnThreads::new(rt), alloc, what, net, core, out, keeper)
}

// The same, by who makes the core's events.
fn record_by<P: Steps, S: Sink, K: Keeper, G: Sources>(
    steps: P,
    alloc: Global,
    what: &RecordTask,
    net: NetId,
    core: Core<G>,
    out: &mut S,
    keeper: &mut K,
) -> Status
    requires can { P.can_step steps }
    requires what { FitsRecord what.now }
    ensures ends { (d : plant.Description) (waves : List Wave) → Serves core (started d waves) → net.bytes ≡ d.net
        → EndsLocalRecording (local_recording d waves what.now) result (S.state out.old) (S.state out.new)
        (keeper_used K.state keeper.old keeper.new) }
    ensures opens { OpensOne result (K.state keeper.old).names (K.state keeper.new).names what.now.store }
    ensures grows { AddsRows (K.state keeper.old).rows (K.state keeper.new).rows }
    ensures run { IsBeforeRun result → ⊥ }
{
    let mut link = LocalLink::new(steps, alloc, core);
    record_link(alloc, what, net, &mut link, out, keeper)
}

// From the server behind a link in the same process, which has not been called.
fn record_link<P: Steps, S: Sink, K: Keeper, G: Sources>(
    alloc: Global,
    what: &RecordTask,
    net: NetId,
    link: &mut LocalLink<P, G>,
    out: &mut S,
    keeper: &mut K,
) -> Status
    requires what { FitsRecord what.now }
    ensures ends { (d : plant.Description) (waves : List Wave) → IsTold link.old (server_start d waves) [] → net.bytes ≡ d.net
        → EndsLocalRecording (local_recording d waves what.now) result (S.state out.old) (S.state out.new)
        (keeper_used K.state keeper.old keeper.new) }
    ensures opens { OpensOne result (K.state keeper.old).names (K.state keeper.new).names what.now.store }
    ensures grows { AddsRows (K.state keeper.old).rows (K.state keeper.new).rows }
    ensures run { IsBeforeRun result → ⊥ }
{
    let addrs = call_addrs(net, &what.client);
    record_over(alloc, what, addrs, LOCAL_ADDRESS, link, out, keeper)
}

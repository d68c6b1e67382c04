//! `serve`: the description of a file is served over a wire.

ghost use Rattle.std.specs.Prelude.{◌<◌, ◌^◌, ◌≡◌, length};
ghost use Rattle.ads_outside.specs.Named.{bytes_of};
ghost use Rattle.ads_outside.specs.Rose.{Rose};
ghost use Rattle.server_core.specs.Profiles.{profile_of};
ghost use Rattle.run_tasks.specs.BeforeRun.{IsBeforeRun};
ghost use Rattle.plant_commands.specs.ServiceEnds.{ServesBy};
ghost use Rattle.run_tasks.specs.Readings.{OverFile, ReadsOne};
ghost use Rattle.run_tasks.specs.Verdict.{verdict_of_file, verdict_of_serve, verdict_of_serve_in};

use crate::machine_run::start_machine;
use ads_base::NoMemory;
use ads_outside::{Files, Sink, Wire};
use cli_words::Text;
use port_device::Manner;
use run_tasks::{Accepted, Status, end_without_memory, print_outcome, read_description};
use server_core::{Core, Profile, Sources};
use std::alloc::Global;
use std::thread::Threads;

/// Serves the description of a file over a wire that listens there, by the strict server, until so many events were taken. The
/// wire is started only where the description is accepted.
pub fn serve<T: Threads + Sync, F: Files, W: Wire, S: Sink, G: Sources>(
    rt: &T,
    alloc: Global,
    description: &Text,
    listen: &Text,
    events: u64,
    files: &mut F,
    wire: &mut W,
    out: &mut S,
    signals: G,
) -> Status
    requires few { length (G.waves signals) < 2 ^ 32 }
    ensures ends { OverFile (F.state files.old).held (λ held.
        ServesBy (verdict_of_file (verdict_of_serve (G.waves signals) description.now listen.now events) (bytes_of held description.now))
        (Rose (F.state files.old).faults (F.state files.new).faults) result (S.state out.old) (S.state out.new)
        (W.state wire.old).history (W.state wire.new).history) }
    ensures reads { ReadsOne result (F.state files.old).names (F.state files.new).names description.now }
    ensures held { (F.state files.new).held ≡ (F.state files.old).held }
    ensures read_fault { result ≡ Status.ReadFault → Rose (F.state files.old).faults (F.state files.new).faults }
    ensures before_run { IsBeforeRun result → wire.new ≡ wire.old }
{
    let profile = Profile {
        manner: Manner::Strict,
        others: None,
    };
    serve_in(
        rt,
        alloc,
        profile,
        description,
        listen,
        events,
        files,
        wire,
        out,
        signals,
    )
}

/// Does what `serve` does, by the server of this profile.
#[tactic(auto, using(spec_persistent::proofs::StoredLemmas::accepted_may_begin))]
pub fn serve_in<T: Threads + Sync, F: Files, W: Wire, S: Sink, G: Sources>(
    rt: &T,
    alloc: Global,
    profile: Profile,
    description: &Text,
    listen: &Text,
    events: u64,
    files: &mut F,
    wire: &mut W,
    out: &mut S,
    signals: G,
) -> Status
    requires few { length (G.waves signals) < 2 ^ 32 }
    ensures ends { OverFile (F.state files.old).held (λ held.
        ServesBy (verdict_of_file (verdict_of_serve_in (profile_of profile) (G.waves signals) description.now listen.now events)
        (bytes_of held description.now))
        (Rose (F.state files.old).faults (F.state files.new).faults) result (S.state out.old) (S.state out.new)
        (W.state wire.old).history (W.state wire.new).history) }
    ensures reads { ReadsOne result (F.state files.old).names (F.state files.new).names description.now }
    ensures held { (F.state files.new).held ≡ (F.state files.old).held }
    ensures read_fault { result ≡ Status.ReadFault → Rose (F.state files.old).faults (F.state files.new).faults }
    ensures before_run { IsBeforeRun result → wire.new ≡ wire.old }
{
    match read_description(alloc, description, signals.count() as u32, files) {
        Err(NoMemory) => end_without_memory(out),
        Ok(Err(told)) => print_outcome(out, told),
        Ok(Ok(read)) => {
            let Accepted {
                bytes,
                description: built,
            } = read;
            match Core::build_in(alloc, profile, built, signals) {
                Err(NoMemory) => end_without_memory(out),
                Ok(mut core) => start_machine(
                    rt,
                    alloc,
                    listen.as_str(),
                    description.as_str(),
                    bytes.as_slice(),
                    &mut core,
                    wire,
                    events,
                    out,
                ),
            }
        }
    }
}

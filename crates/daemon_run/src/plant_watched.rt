//! A plant is served over a wire that ends where a stop is asked for.

ghost use Rattle.std.specs.Prelude.{◌+◌, ◌<◌, ◌≤◌, ◌^◌, ◌≡◌, length, IfSome, None};
ghost use Rattle.ads_outside.specs.Named.{bytes_of};
ghost use Rattle.ads_outside.specs.Rose.{Rose, raised};
ghost use Rattle.server_core.specs.Profiles.{profile_of};
ghost use Rattle.persist_store.specs.Disk.{OpensOnly};
ghost use Rattle.keep_play.specs.KeptDisk.{disk_used};
ghost use Rattle.run_tasks.specs.BeforeRun.{IsBeforeRun};
ghost use Rattle.run_tasks.specs.Readings.{OverFile, ReadsOne};
ghost use Rattle.daemon_outside.specs.Stops.{raised_if};
ghost use Rattle.watched_wire.specs.Ends.{with_ends};
ghost use Rattle.watched_wire.specs.Ticks.{TicksAre};
ghost use Rattle.daemon_run.specs.Plant.{serving, verdict_on};
ghost use Rattle.daemon_run.specs.PlantEnds.{PlantBy};

use crate::plant::run_plant;
use ads_outside::{Files, Sink, Wire};
use cli_words::Text;
use daemon_outside::{Onlooker, Stop};
use keep_loop::Told;
use persist_store::Disk;
use run_tasks::Status;
use server_core::{Core, Profile, Sources};
use std::alloc::Global;
use std::thread::Threads;
use watched_wire::Watched;

/// Does what `run_plant` does, over a wire that ends where a stop is asked for: what `run_plant` says of a wire's history holds of
/// the history of the wire inside, but for the count of its ends, which is that of the watched wire. Done comes only by a stop, or
/// where the wire inside had no more events.
pub fn run_watched<
    T: Threads + Sync,
    F: Files,
    W: Wire + Drop,
    P: Stop + Drop,
    O: Onlooker<W> + Drop,
    S: Sink,
    D: Disk,
    G: Sources,
    N: Told<Core<G>> + Drop,
>(
    rt: &T,
    alloc: Global,
    profile: Profile,
    description: &Text,
    listen: &Text,
    store: &Option<Text>,
    every: u64,
    files: &mut F,
    wire: &mut Watched<W, P, O>,
    out: &mut S,
    disk: &mut D,
    told: N,
    signals: G,
) -> Status
    requires few { length (G.waves signals) < 2 ^ 32 }
    requires every { 1 ≤ every }
    ensures ends { OverFile (F.state files.old).held (λ held.
        PlantBy (serving (profile_of profile) (G.waves signals) store.now every) (disk.new ≡ disk.old)
        (verdict_on (serving (profile_of profile) (G.waves signals) store.now every) description.now listen.now (bytes_of held description.now))
        (Rose (F.state files.old).faults (F.state files.new).faults) result (S.state out.old) (S.state out.new)
        (disk_used D.contents D.may_leave D.moment D.left_since D.marked D.fault_count disk.old disk.new)
        (with_ends wire.old.ends (W.state wire.old.wire).history) (with_ends wire.new.ends (W.state wire.new.wire).history)) }
    // A stop was looked for once at the start and once behind each tick; none of these looks but the last found one, which ended it.
    ensures ticks { TicksAre wire.new.ticks (W.state wire.new.wire).history.log }
    ensures looks { raised_if wire.new.due (P.looks wire.new.stop) ≡ raised wire.new.ticks }
    ensures calm { wire.new.ends ≡ 0 → P.asked wire.new.stop ≡ 0 }
    ensures once { P.asked wire.new.stop ≤ 1 }
    ensures by_stop { result ≡ Status.Done → 0 < P.asked wire.new.stop + (W.state wire.new.wire).history.ends }
    ensures no_disk { store.now ≡ None → disk.new ≡ disk.old }
    ensures opens { IfSome store.now (OpensOnly (D.names disk.old) (D.names disk.new)) }
    ensures store_fault { result ≡ Status.StoreFault → Rose (D.fault_count disk.old) (D.fault_count disk.new) }
    ensures reads { ReadsOne result (F.state files.old).names (F.state files.new).names description.now }
    ensures held { (F.state files.new).held ≡ (F.state files.old).held }
    ensures read_fault { result ≡ Status.ReadFault → Rose (F.state files.old).faults (F.state files.new).faults }
    ensures disk_before_run { IsBeforeRun result → disk.new ≡ disk.old }
{
    let status = run_plant(
        rt,
        alloc,
        profile,
        description,
        listen,
        store,
        every,
        files,
        wire,
        out,
        disk,
        told,
        signals,
    );
    wire.ended_for_a_reason();
    wire.looks_behind_each_tick();
    status
}

//! A plant is served until its wire ends, over a store or without one.

ghost use Rattle.std.specs.Prelude.{◌≡◌, ◌<◌, ◌≤◌, ◌^◌, length, IfSome, None};
ghost use Rattle.ads_outside.specs.Named.{bytes_of};
ghost use Rattle.ads_outside.specs.Rose.{Rose, raised};
ghost use Rattle.server_core.specs.Profiles.{profile_of};
ghost use Rattle.persist_store.specs.Disk.{OpensOnly};
ghost use Rattle.keep_play.specs.KeptDisk.{disk_used};
ghost use Rattle.run_tasks.specs.BeforeRun.{IsBeforeRun};
ghost use Rattle.run_tasks.specs.Readings.{OverFile, ReadsOne};
ghost use Rattle.daemon_run.specs.Plant.{serving, verdict_on};
ghost use Rattle.daemon_run.specs.PlantEnds.{PlantBy};

use crate::plant_kept::keep_read;
use crate::plant_served::serve_read;
use ads_base::NoMemory;
use ads_outside::{Files, Sink, Wire};
use cli_words::Text;
use keep_loop::Told;
use persist_store::Disk;
use run_tasks::{Status, end_without_memory, print_outcome, read_description};
use server_core::{Core, Profile, Sources};
use std::alloc::Global;
use std::thread::Threads;

/// Serves the plant of a description's file over a wire that listens there, by the server of a profile, until the wire ends. With a
/// store its persistent symbols begin with what the file of that name holds, and are saved after each so manieth tick and at the
/// end, where they differ from what stands. It is told what became of each event and of each save.
/// The store is opened, and the wire started, only where the description is accepted.
pub fn run_plant<
    T: Threads + Sync,
    F: Files,
    W: Wire,
    S: Sink,
    D: Disk,
    G: Sources,
    N: Told<Core<G>> + Drop,
>(
    rt: &T,
    alloc: Global,
    profile: Profile,
    description: &Text,
    listen: &Text,
    store: &Option<Text>,
    every: u64,
    files: &mut F,
    wire: &mut W,
    out: &mut S,
    disk: &mut D,
    told: N,
    signals: G,
) -> Status
    requires few { length (G.waves signals) < 2 ^ 32 }
    requires every { 1 ≤ every }
    ensures ends { OverFile (F.state files.old).held (λ held.
        PlantBy (serving (profile_of profile) (G.waves signals) store.now every) (disk.new ≡ disk.old)
        (verdict_on (serving (profile_of profile) (G.waves signals) store.now every) description.now listen.now (bytes_of held description.now))
        (Rose (F.state files.old).faults (F.state files.new).faults) result (S.state out.old) (S.state out.new)
        (disk_used D.contents D.may_leave D.moment D.left_since D.marked D.fault_count disk.old disk.new)
        (W.state wire.old).history (W.state wire.new).history) }
    ensures done { result ≡ Status.Done → (W.state wire.new).history.ends ≡ raised (W.state wire.old).history.ends }
    ensures no_disk { store.now ≡ None → disk.new ≡ disk.old }
    ensures opens { IfSome store.now (OpensOnly (D.names disk.old) (D.names disk.new)) }
    ensures store_fault { result ≡ Status.StoreFault → Rose (D.fault_count disk.old) (D.fault_count disk.new) }
    ensures reads { ReadsOne result (F.state files.old).names (F.state files.new).names description.now }
    ensures held { (F.state files.new).held ≡ (F.state files.old).held }
    ensures read_fault { result ≡ Status.ReadFault → Rose (F.state files.old).faults (F.state files.new).faults }
    ensures before_run { IsBeforeRun result → wire.new ≡ wire.old }
    ensures disk_before_run { IsBeforeRun result → disk.new ≡ disk.old }
{
    match read_description(alloc, description, signals.count() as u32, files) {
        Err(NoMemory) => end_without_memory(out),
        Ok(Err(told)) => print_outcome(out, told),
        Ok(Ok(read)) => match store {
            None => serve_read(
                rt,
                alloc,
                profile,
                description,
                listen,
                read,
                wire,
                out,
                told,
                signals,
            ),
            Some(store) => keep_read(
                rt,
                alloc,
                profile,
                description,
                listen,
                read,
                store,
                every,
                wire,
                out,
                disk,
                told,
                signals,
            ),
        },
    }
}

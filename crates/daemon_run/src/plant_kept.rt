//! The plant of a description that was read is served over a store.

ghost use Rattle.std.specs.Prelude.{◌≡◌, ◌<◌, ◌≤◌, ◌^◌, length, false, Some};
ghost use Rattle.ads_outside.specs.Rose.{Rose};
ghost use Rattle.ads_served.specs.Standing.{Standing};
ghost use Rattle.server_core.specs.Profiles.{profile_of};
ghost use Rattle.spec_plant.specs.Accepted.{IsAccepted};
ghost use Rattle.type_layout.specs.Descriptions.{description_of};
ghost use Rattle.persist_store.specs.Disk.{OpensOnly};
ghost use Rattle.persist_store.specs.Store.{IsReady};
ghost use Rattle.server_core.specs.Served.{World, Client};
ghost use Rattle.server_core.specs.Serves.{StandsAt};
ghost use Rattle.keep_play.specs.KeptDisk.{disk_used};
ghost use Rattle.keep_play.specs.KeptSaves.{description_kept};
ghost use Rattle.plant_commands.specs.FileOutcomes.{at_start_in};
ghost use Rattle.plant_commands.specs.Machine.{StandsAnew};
ghost use Rattle.daemon_run.specs.Kept.{EndsKept, status_kept};
ghost use Rattle.daemon_run.specs.Plant.{plant_of, serving};
ghost use Rattle.daemon_run.specs.Printed.{IsOfPlant};
ghost use Rattle.daemon_run.specs.Running.{EndsOn, RunsOn, StandsForSomeAnew};

use crate::printing::print_end;
use ads_base::NoMemory;
use ads_outside::{Sink, Wire};
use cli_words::Text;
use keep_loop::{KeptOn, SaveEnd, Told, keep_on};
use persist_store::{Disk, Store, StoreOpen};
use plant_commands::start_and_tell;
use run_tasks::{Accepted, Status, end_without_memory, print_line};
use server_core::{Core, Profile, Sources};
use std::alloc::Global;
use std::thread::Threads;
use stored_values::with_stored;

/// Opens the store in the file of a name, and serves over it and over a wire a description that was read, until the wire ends.
pub(crate) fn keep_read<
    T: Threads + Sync,
    W: Wire,
    S: Sink,
    D: Disk,
    G: Sources,
    N: Told<Core<G>> + Drop,
>(
    rt: &T,
    alloc: Global,
    profile: Profile,
    name: &Text,
    listen: &Text,
    read: Accepted,
    store: &Text,
    every: u64,
    wire: &mut W,
    out: &mut S,
    disk: &mut D,
    told: N,
    signals: G,
) -> Status
    requires few { length (G.waves signals) < 2 ^ 32 }
    requires accepted { IsAccepted (description_of read.description) (length (G.waves signals)) }
    requires every { 1 ≤ every }
    ensures ends { EndsKept (serving (profile_of profile) (G.waves signals) (Some store.now) every)
        (plant_of name.now listen.now read.bytes (description_of read.description)) result (S.state out.old) (S.state out.new)
        (disk_used D.contents D.may_leave D.moment D.left_since D.marked D.fault_count disk.old disk.new)
        (W.state wire.old).history (W.state wire.new).history }
    ensures status { IsOfPlant result }
    ensures opens { OpensOnly (D.names disk.old) (D.names disk.new) store.now }
    ensures store_fault { result ≡ Status.StoreFault → Rose (D.fault_count disk.old) (D.fault_count disk.new) }
{
    match Store::open(alloc, disk, store.as_str()) {
        Err(NoMemory) => end_without_memory(out),
        Ok(StoreOpen::Failed) => print_line(alloc, Status::StoreFault, out),
        Ok(StoreOpen::Ready(opened)) => keep_opened(
            rt, alloc, profile, name, listen, read, store, opened, every, wire, out, disk, told,
            signals,
        ),
    }
}

// Serves a description that was read over an open store and a wire.
fn keep_opened<T: Threads + Sync, W: Wire, S: Sink, D: Disk, G: Sources, N: Told<Core<G>> + Drop>(
    rt: &T,
    alloc: Global,
    profile: Profile,
    name: &Text,
    listen: &Text,
    read: Accepted,
    file: &Text,
    store: Store,
    every: u64,
    wire: &mut W,
    out: &mut S,
    disk: &mut D,
    told: N,
    signals: G,
) -> Status
    requires few { length (G.waves signals) < 2 ^ 32 }
    requires accepted { IsAccepted (description_of read.description) (length (G.waves signals)) }
    requires every { 1 ≤ every }
    requires ready { IsReady D.contents D.may_leave disk.old store }
    requires open { store.shut ≡ false }
    ensures ends { EndsOn every (record { listen = listen.now; name = name.now; first = read.bytes })
        (at_start_in (profile_of profile) (description_kept (description_of read.description) store.standing) (G.waves signals))
        store.standing result (S.state out.old) (S.state out.new)
        D.contents D.may_leave D.moment D.left_since D.marked D.fault_count disk.old disk.new (W.state wire.old).history (W.state wire.new).history }
    ensures status { IsOfPlant result }
    ensures later { D.fault_count disk.old ≤ D.fault_count disk.new }
    ensures opens { OpensOnly (D.names disk.old) (D.names disk.new) file.now }
    ensures store_fault { result ≡ Status.StoreFault → Rose (D.fault_count disk.old) (D.fault_count disk.new) }
{
    let Accepted { bytes, description } = read;
    let stored = match with_stored(alloc, description, store.body()) {
        Ok(stored) => stored,
        Err(NoMemory) => return end_without_memory(out),
    };
    let mut core = match Core::build_in(alloc, profile, stored, signals) {
        Ok(core) => core,
        Err(NoMemory) => return end_without_memory(out),
    };
    keep_core(
        rt,
        alloc,
        listen.as_str(),
        name.as_str(),
        bytes.as_slice(),
        &mut core,
        file.as_str(),
        store,
        every,
        wire,
        out,
        disk,
        told,
    )
}

// Starts the wire, and serves a core over it and over an open store.
fn keep_core<T: Threads + Sync, W: Wire, S: Sink, D: Disk, G: Sources, N: Told<Core<G>> + Drop>(
    rt: &T,
    alloc: Global,
    listen: &str,
    name: &str,
    first: &[u8],
    core: &mut Core<G>,
    file: &str,
    store: Store,
    every: u64,
    wire: &mut W,
    out: &mut S,
    disk: &mut D,
    told: N,
) -> Status
    requires some { StandsForSomeAnew (StandsAt core.old) }
    requires every { 1 ≤ every }
    requires ready { IsReady D.contents D.may_leave disk.old store }
    requires open { store.shut ≡ false }
    ensures ends { (x : Standing World Client) → StandsAnew (StandsAt core.old) x
        → EndsOn every (record { listen = listen.now; name = name.now; first = first.now }) x
        store.standing result (S.state out.old) (S.state out.new)
        D.contents D.may_leave D.moment D.left_since D.marked D.fault_count disk.old disk.new (W.state wire.old).history (W.state wire.new).history }
    ensures status { IsOfPlant result }
    ensures later { D.fault_count disk.old ≤ D.fault_count disk.new }
    ensures opens { OpensOnly (D.names disk.old) (D.names disk.new) file.now }
    ensures store_fault { result ≡ Status.StoreFault → Rose (D.fault_count disk.old) (D.fault_count disk.new) }
{
    match start_and_tell(listen, name, first, wire, out) {
        Ok(()) => run_kept(rt, alloc, core, file, store, every, wire, out, disk, told),
        Err(status) => status,
    }
}

// A core is served, its bodies are kept, and what that comes to is printed.
fn run_kept<T: Threads + Sync, W: Wire, S: Sink, D: Disk, G: Sources, N: Told<Core<G>> + Drop>(
    rt: &T,
    alloc: Global,
    core: &mut Core<G>,
    file: &str,
    store: Store,
    every: u64,
    wire: &mut W,
    out: &mut S,
    disk: &mut D,
    told: N,
) -> Status
    requires some { StandsForSomeAnew (StandsAt core.old) }
    requires every { 1 ≤ every }
    requires ready { IsReady D.contents D.may_leave disk.old store }
    requires open { store.shut ≡ false }
    ensures ends { (x : Standing World Client) → StandsAnew (StandsAt core.old) x
        → RunsOn every x store.standing result (S.state out.old) (S.state out.new)
        D.contents D.may_leave D.moment D.left_since D.marked D.fault_count disk.old disk.new (W.state wire.old).history (W.state wire.new).history }
    ensures status { IsOfPlant result }
    ensures later { D.fault_count disk.old ≤ D.fault_count disk.new }
    ensures opens { OpensOnly (D.names disk.old) (D.names disk.new) file.now }
    ensures store_fault { result ≡ Status.StoreFault → Rose (D.fault_count disk.old) (D.fault_count disk.new) }
{
    let kept = keep_on(
        rt,
        alloc,
        core,
        wire,
        store,
        disk,
        file,
        told,
        every,
        u64::MAX - 1,
    );
    print_end(
        alloc,
        core,
        kept.ended,
        status_of(&kept),
        Some(kept.counts.saved),
        out,
    )
}

// How a run ends whose wire had no more events, by what became of the body at its end. A last look that failed, or that was over
// the limit, is counted.
fn status_of(kept: &KeptOn) -> Status
    ensures kept { result ≡ status_kept kept.now }
    ensures status { IsOfPlant result }
{
    match kept.last {
        None | Some(SaveEnd::Same | SaveEnd::Saved) => Status::Done,
        Some(SaveEnd::Failed) if kept.counts.failed > 0 => Status::StoreFault,
        Some(SaveEnd::Limit) if kept.counts.over > 0 => Status::StoreLimit,
        Some(SaveEnd::Failed | SaveEnd::Limit | SaveEnd::Memory) => Status::Memory,
    }
}

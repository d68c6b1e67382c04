//! The body of what is served is looked at, over a store that an earlier save may have shut.

ghost use Rattle.std.specs.Prelude.{◌≡◌, ◌≤◌, List, false, None};
ghost use Rattle.ads_outside.specs.Rose.{Rose};
ghost use Rattle.ads_served.specs.Standing.{Standing};
ghost use Rattle.spec_store.specs.Disk.{LeavesOnly};
ghost use Rattle.persist_store.specs.Disk.{OpensOnly};
ghost use Rattle.persist_store.specs.Marks.{MarksStay};
ghost use Rattle.persist_store.specs.Store.{IsReady};
ghost use Rattle.keep_loop.specs.Looking.{AfterLook, Reopens};
ghost use Rattle.keep_loop.specs.Saving.{StandsForSome};

use crate::reopened::Reopened;
use crate::saving::save_body;
use crate::{SaveEnd, Told};
use ads_base::NoMemory;
use ads_served::Served;
use persist_store::{Disk, Store, StoreOpen};
use std::alloc::Global;

/// Opens the store again where an earlier save shut it, saves the body of what is served where it differs from the store's
/// or nothing stands, and tells what became of it.
pub(crate) fn look<M: Served, D: Disk, N: Told<M>>(
    alloc: Global,
    served: &M,
    store: &mut Store,
    disk: &mut D,
    name: &str,
    told: &mut N,
) -> SaveEnd
    requires some { StandsForSome (M.serves served.now) }
    requires ready { IsReady D.contents D.may_leave disk.old store.old }
    ensures looked { (x : Standing M.World M.Client) → M.serves served.now x → AfterLook result (M.body_of x.running.state.world)
        D.contents D.may_leave D.moment D.left_since disk.old disk.new store.old store.new }
    ensures ready { IsReady D.contents D.may_leave disk.new store.new }
    ensures untold { D.contents disk.old ≡ None → D.contents disk.new ≡ None }
    ensures named { OpensOnly (D.names disk.old) (D.names disk.new) name.now }
    ensures marks { MarksStay D.marked disk.old disk.new }
    ensures later { D.fault_count disk.old ≤ D.fault_count disk.new }
    ensures failed { result ≡ SaveEnd.Failed → Rose (D.fault_count disk.old) (D.fault_count disk.new) }
    ensures heard { (before : List M.Came) → N.heard told.old before → N.heard told.new before }
{
    let became = look_again(alloc, served, store, disk, name);
    tell::<M, N>(store, became, told);
    became
}

// The same, untold.
fn look_again<M: Served, D: Disk>(
    alloc: Global,
    served: &M,
    store: &mut Store,
    disk: &mut D,
    name: &str,
) -> SaveEnd
    requires some { StandsForSome (M.serves served.now) }
    requires ready { IsReady D.contents D.may_leave disk.old store.old }
    ensures looked { (x : Standing M.World M.Client) → M.serves served.now x → AfterLook result (M.body_of x.running.state.world)
        D.contents D.may_leave D.moment D.left_since disk.old disk.new store.old store.new }
    ensures ready { IsReady D.contents D.may_leave disk.new store.new }
    ensures untold { D.contents disk.old ≡ None → D.contents disk.new ≡ None }
    ensures named { OpensOnly (D.names disk.old) (D.names disk.new) name.now }
    ensures marks { MarksStay D.marked disk.old disk.new }
    ensures later { D.fault_count disk.old ≤ D.fault_count disk.new }
    ensures failed { result ≡ SaveEnd.Failed → Rose (D.fault_count disk.old) (D.fault_count disk.new) }
{
    match open_again(alloc, store, disk, name) {
        Reopened::Open => save_body(alloc, served, store, disk),
        Reopened::Failed => SaveEnd::Failed,
        Reopened::Memory => SaveEnd::Memory,
    }
}

// A store that an earlier save shut is opened again: what the file stands for stands.
#[tactic(auto, using(persist_store::proofs::NameLemmas::only_none, persist_store::proofs::NameLemmas::all_only, persist_store::proofs::NameLemmas::some_only))]
fn open_again<D: Disk>(alloc: Global, store: &mut Store, disk: &mut D, name: &str) -> Reopened
    requires ready { IsReady D.contents D.may_leave disk.old store.old }
    ensures opens { Reopens D.contents D.may_leave D.moment D.left_since disk.old disk.new store.old store.new }
    ensures open { result ≡ Reopened.Open → store.new.shut ≡ false }
    ensures named { OpensOnly (D.names disk.old) (D.names disk.new) name.now }
    ensures marks { MarksStay D.marked disk.old disk.new }
    ensures later { D.fault_count disk.old ≤ D.fault_count disk.new }
    ensures failed { result ≡ Reopened.Failed → Rose (D.fault_count disk.old) (D.fault_count disk.new) }
{
    if !store.is_shut() {
        return Reopened::Open;
    }
    match Store::open(alloc, disk, name) {
        Ok(StoreOpen::Ready(opened)) => {
            *store = opened;
            Reopened::Open
        }
        Ok(StoreOpen::Failed) => Reopened::Failed,
        Err(NoMemory) => Reopened::Memory,
    }
}

// What became of a body is told.
fn tell<M: Served, N: Told<M>>(store: &Store, became: SaveEnd, told: &mut N)
    ensures heard { (before : List M.Came) → N.heard told.old before → N.heard told.new before }
{
    match became {
        SaveEnd::Same => {}
        SaveEnd::Saved => told.saved(standing_length(store)),
        SaveEnd::Failed => told.failed(),
        SaveEnd::Limit => told.over_limit(),
        SaveEnd::Memory => told.no_memory(),
    }
}

// How many bytes the body has that stands.
fn standing_length(store: &Store) -> u64 {
    match store.body() {
        Some(body) => body.len() as u64,
        None => 0,
    }
}

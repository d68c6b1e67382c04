//! The body of what is served is saved, where it does not stand already.

ghost use Rattle.std.specs.Prelude.{◌≡◌, ◌≤◌, ◌<◌, true, false, None, IfOk};
ghost use Rattle.ads_outside.specs.Rose.{Rose};
ghost use Rattle.ads_served.specs.Standing.{Standing};
ghost use Rattle.spec_store.specs.BodyText.{is_body_text};
ghost use Rattle.persist_store.specs.Marks.{MarksStay};
ghost use Rattle.persist_store.specs.Store.{IsReady, body_of};
ghost use Rattle.keep_loop.specs.Bodies.{is_standing};
ghost use Rattle.keep_loop.specs.Saving.{AfterSave, StandsForSome};

use crate::save_end::SaveEnd;
use ads_base::NoMemory;
use ads_served::Served;
use persist_store::{Disk, Saved, Store};
use std::alloc::Global;

/// Saves the body of what is served, where it differs from the store's or nothing stands.
pub(crate) fn save_body<M: Served, D: Disk>(
    alloc: Global,
    served: &M,
    store: &mut Store,
    disk: &mut D,
) -> SaveEnd
    requires some { StandsForSome (M.serves served.now) }
    requires ready { IsReady D.contents D.may_leave disk.old store.old }
    requires open { store.old.shut ≡ false }
    ensures saved { AfterSave result (λ body. (x : Standing M.World M.Client) → M.serves served.now x → body ≡ M.body_of x.running.state.world)
        D.contents D.moment D.left_since disk.old disk.new store.old store.new }
    ensures ready { IsReady D.contents D.may_leave disk.new store.new }
    ensures untold { D.contents disk.old ≡ None → D.contents disk.new ≡ None }
    ensures told { D.contents disk.new ≡ None → D.contents disk.old ≡ None }
    ensures names { D.names disk.new ≡ D.names disk.old }
    ensures marks { MarksStay D.marked disk.old disk.new }
    ensures later { D.fault_count disk.old ≤ D.fault_count disk.new }
    ensures failed { result ≡ SaveEnd.Failed → Rose (D.fault_count disk.old) (D.fault_count disk.new) }
{
    match is_standing(alloc, served, store) {
        Ok(true) => SaveEnd::Same,
        Ok(false) => save_made(alloc, served, store, disk),
        Err(NoMemory) => SaveEnd::Memory,
    }
}

// Whether the body of what is served stands already, which is told without its text.
fn is_standing<M: Served>(alloc: Global, served: &M, store: &Store) -> Result<bool, NoMemory>
    ensures { IfOk result (λ same. (x : Standing M.World M.Client) → M.serves served.now x
        → same ≡ is_standing (body_of store.now) (M.body_of x.running.state.world)) }
{
    match store.body() {
        Some(stood) => served.is_body(alloc, stood),
        None => Ok(false),
    }
}

// Makes the body of what is served, and saves it where it differs from the store's or nothing stands.
fn save_made<M: Served, D: Disk>(
    alloc: Global,
    served: &M,
    store: &mut Store,
    disk: &mut D,
) -> SaveEnd
    requires some { StandsForSome (M.serves served.now) }
    requires ready { IsReady D.contents D.may_leave disk.old store.old }
    requires open { store.old.shut ≡ false }
    ensures saved { AfterSave result (λ body. (x : Standing M.World M.Client) → M.serves served.now x → body ≡ M.body_of x.running.state.world)
        D.contents D.moment D.left_since disk.old disk.new store.old store.new }
    ensures ready { IsReady D.contents D.may_leave disk.new store.new }
    ensures untold { D.contents disk.old ≡ None → D.contents disk.new ≡ None }
    ensures told { D.contents disk.new ≡ None → D.contents disk.old ≡ None }
    ensures names { D.names disk.new ≡ D.names disk.old }
    ensures marks { MarksStay D.marked disk.old disk.new }
    ensures later { D.fault_count disk.old ≤ D.fault_count disk.new }
    ensures failed { result ≡ SaveEnd.Failed → Rose (D.fault_count disk.old) (D.fault_count disk.new) }
{
    match served.body(alloc) {
        Ok(body) => save_new(alloc, store, disk, body.as_slice()),
        Err(NoMemory) => SaveEnd::Memory,
    }
}

// Saves a body, where it differs from the store's or nothing stands.
fn save_new<D: Disk>(alloc: Global, store: &mut Store, disk: &mut D, body: &[u8]) -> SaveEnd
    requires text { is_body_text body.now ≡ true }
    requires ready { IsReady D.contents D.may_leave disk.old store.old }
    requires open { store.old.shut ≡ false }
    ensures saved { AfterSave result (λ b. b ≡ body.now)
        D.contents D.moment D.left_since disk.old disk.new store.old store.new }
    ensures ready { IsReady D.contents D.may_leave disk.new store.new }
    ensures untold { D.contents disk.old ≡ None → D.contents disk.new ≡ None }
    ensures told { D.contents disk.new ≡ None → D.contents disk.old ≡ None }
    ensures names { D.names disk.new ≡ D.names disk.old }
    ensures marks { MarksStay D.marked disk.old disk.new }
    ensures later { D.fault_count disk.old ≤ D.fault_count disk.new }
    ensures failed { result ≡ SaveEnd.Failed → Rose (D.fault_count disk.old) (D.fault_count disk.new) }
{
    if stands(store, body) {
        return SaveEnd::Same;
    }
    match store.save(alloc, disk, body) {
        Ok(Saved::Done) => SaveEnd::Saved,
        Ok(Saved::Failed) => SaveEnd::Failed,
        Ok(Saved::Limit) => SaveEnd::Limit,
        Ok(Saved::Shut) => unreachable!(),
        Err(NoMemory) => SaveEnd::Memory,
    }
}

// Whether a body stands already.
fn stands(store: &Store, body: &[u8]) -> bool
    ensures { result ≡ is_standing (body_of store.now) body.now }
{
    match store.body() {
        None => false,
        Some(stood) => stood == body,
    }
}

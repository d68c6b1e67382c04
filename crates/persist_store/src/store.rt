//! The store: a body in one file, which a stop of the machine leaves whole.

ghost use Rattle.std.specs.Prelude.{◌≡◌, ◌≤◌, ◌<◌, ◌^◌, List, ℕ, true, false, None, Some, option_map, IfOk, OnErr};
ghost use Rattle.ads_outside.specs.Rose.{Rose};
ghost use Rattle.spec_store.specs.BodyText.{is_body_text};
ghost use Rattle.spec_store.specs.Disk.{LeavesOnly};
ghost use Rattle.spec_store.specs.Slots.{standing_of};
ghost use Rattle.spec_store.specs.Saves.{standing_after, next_sequence, is_over_limit};
ghost use Rattle.spec_store.specs.Laws.{IsBeforeOrAfter};
ghost use Rattle.persist_store.specs.Disk.{OpensOnce};
ghost use Rattle.persist_store.specs.Marks.{MarksStay};
ghost use Rattle.persist_store.specs.Opened.{IsOpened};
ghost use Rattle.persist_store.specs.Slots.{standing_kept};
ghost use Rattle.persist_store.specs.Steps.{StandsFor};
ghost use Rattle.persist_store.specs.Store.{body_of, IsReady, IsRefused, LeavesDisk, store_after};

use crate::opening::open_standing;
use crate::save_slot::save_slot;
use crate::slot_text::MAX_BODY;
use crate::standing_slot::StandingSlot;
use crate::step_fault::StepFault;
use crate::{Disk, Saved, StoreOpen};
use ads_base::NoMemory;
use std::alloc::Global;
use std::marker::Model;

/// A store over a file: the body that stands in it, and whether the file is to be opened again.
#[derive(Drop)]
pub struct Store {
    standing: Option<StandingSlot>,
    shut: bool,
}

impl Model for Store {
    ghost use Rattle.std.specs.Prelude.{option_map};
    ghost use Rattle.persist_store.specs.Slots.{standing_kept};
    ghost use Rattle.persist_store.specs.Store.{StoreState};

    ghost Value = { StoreState };

    ghost view = { λ s. record { standing = option_map standing_kept s.standing; shut = s.shut } };
}

impl Store {
    /// Opens the store in the file of a name: brings what may be pending to the disk, and reads what the file stands for.
    pub fn open<D: Disk>(alloc: Global, disk: &mut D, name: &str) -> Result<StoreOpen, NoMemory>
        ensures opened { IfOk result (IsOpened D.contents D.may_leave disk.old disk.new) }
        ensures named { OpensOnce result (D.names disk.old) (D.names disk.new) name.now }
        ensures marks { MarksStay D.marked disk.old disk.new }
        ensures contents { D.contents disk.new ≡ D.contents disk.old }
        ensures stop { LeavesOnly D.moment D.left_since disk.old disk.new (D.may_leave disk.old) }
        ensures later { D.fault_count disk.old ≤ D.fault_count disk.new }
        ensures failed { IfOk result (λ answer. answer ≡ StoreOpen.Failed
            → Rose (D.fault_count disk.old) (D.fault_count disk.new)) }
    {
        match open_standing(alloc, disk, name) {
            Ok(standing) => Ok(StoreOpen::Ready(Store {
                standing,
                shut: false,
            })),
            Err(StepFault::Failed) => Ok(StoreOpen::Failed),
            Err(StepFault::Memory) => Err(NoMemory),
        }
    }

    /// The body that stands: as the file was opened, or as the last save that was done left it.
    pub fn body(&self) -> Option<&[u8]>
        ensures { option_map (λ b. b.now) result ≡ body_of self.now }
    {
        match &self.standing {
            None => None,
            Some(slot) => Some(slot.body.as_slice()),
        }
    }

    /// Whether an earlier save failed or lacked memory, and the file is to be opened again.
    pub fn is_shut(&self) -> bool
        ensures { result ≡ self.now.shut }
    {
        self.shut
    }

    /// Saves a body. After a stop of the machine at any moment of it the file stands for the body before or for the new
    /// one; once it is done, every stop leaves the new one.
    pub fn save<D: Disk>(
        &mut self,
        alloc: Global,
        disk: &mut D,
        body: &[u8],
    ) -> Result<Saved, NoMemory>
        requires text { is_body_text body.now ≡ true }
        requires ready { IsReady D.contents D.may_leave disk.old self.old }
        ensures refused { IfOk result (IsRefused self.old body.now) }
        ensures store { IfOk result (λ answer. self.new ≡ store_after answer self.old body.now) }
        ensures no_memory { OnErr result (self.new ≡ record { standing = self.old.standing; shut = true }) }
        ensures done { IfOk result (λ answer. answer ≡ Saved.Done → (file : List ℕ) → D.contents disk.old ≡ Some file
            → StandsFor D.contents D.may_leave disk.new (standing_after (standing_of file) body.now)) }
        ensures stop { (file : List ℕ) → D.contents disk.old ≡ Some file → self.old.shut ≡ false
            → LeavesOnly D.moment D.left_since disk.old disk.new (IsBeforeOrAfter file body.now) }
        ensures ready { IsReady D.contents D.may_leave disk.new self.new }
        ensures untold { D.contents disk.old ≡ None → D.contents disk.new ≡ None }
        ensures told { D.contents disk.new ≡ None → D.contents disk.old ≡ None }
        ensures names { D.names disk.new ≡ D.names disk.old }
        ensures marks { MarksStay D.marked disk.old disk.new }
        ensures untouched { IfOk result (λ answer. LeavesDisk answer disk.old disk.new) }
        ensures later { D.fault_count disk.old ≤ D.fault_count disk.new }
        ensures failed { IfOk result (λ answer. answer ≡ Saved.Failed
            → Rose (D.fault_count disk.old) (D.fault_count disk.new)) }
    {
        if self.shut {
            return Ok(Saved::Shut);
        }
        if is_over_limit(&self.standing, body) {
            return Ok(Saved::Limit);
        }
        self.shut = true;
        match save_slot(alloc, disk, &self.standing, body) {
            Ok(slot) => {
                self.standing = Some(slot);
                self.shut = false;
                Ok(Saved::Done)
            }
            Err(StepFault::Failed) => Ok(Saved::Failed),
            Err(StepFault::Memory) => Err(NoMemory),
        }
    }
}

// Whether a save is refused by its limit: the body is too long, or the standing number is the greatest.
fn is_over_limit(standing: &Option<StandingSlot>, body: &[u8]) -> bool
    ensures limit { result ≡ is_over_limit (option_map standing_kept standing.now) body.now }
    ensures number { result ≡ false → next_sequence (option_map standing_kept standing.now) < 2 ^ 64 }
{
    if body.len() > MAX_BODY {
        return true;
    }
    match standing {
        None => false,
        Some(slot) => slot.sequence == u64::MAX,
    }
}

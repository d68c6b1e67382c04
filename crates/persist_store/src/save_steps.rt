//! The three steps of a save: the gate is closed, the slot is filled, the gate is opened.

ghost use Rattle.std.specs.Prelude.{◌≡◌, ◌+◌, ◌≤◌, ◌<◌, ◌^◌, List, ℕ, [], ◌∷◌, length, true, None, Some, OnOk};
ghost use Rattle.spec_store.specs.Disk.{written, Torn, LeavesOnly};
ghost use Rattle.spec_store.specs.Slots.{MAX_BODY, Slot, behind_gate, standing_of};
ghost use Rattle.spec_store.specs.Saves.{next_place, next_slot, standing_after, has_closed_gate};
ghost use Rattle.spec_store.specs.Laws.{MaySave, IsFilled, IsBeforeOrAfter};
ghost use Rattle.persist_store.specs.Marks.{MarksStay};
ghost use Rattle.persist_store.specs.Steps.{IsAt, HasCause, IsShut, IsFull, StandsFor, IsSaving};

use crate::gate::is_gate_closed;
use crate::step_fault::StepFault;
use crate::{Disk, Synced, Wrote};

/// Writes a slot: the place, and what stands behind the gate.
pub fn write_slot<D: Disk>(disk: &mut D, place: u64, behind: &[u8]) -> Result<(), StepFault>
    requires { place < 2 ^ 32 }
    ensures done { OnOk result ((file body : List ℕ) → IsAt D.contents D.may_leave disk.old file
        → IsSaving file body place behind.now
        → StandsFor D.contents D.may_leave disk.new (standing_after (standing_of file) body)) }
    ensures stop { (file body : List ℕ) → IsAt D.contents D.may_leave disk.old file
        → IsSaving file body place behind.now
        → LeavesOnly D.moment D.left_since disk.old disk.new (IsBeforeOrAfter file body) }
    ensures untold { D.contents disk.old ≡ None → D.contents disk.new ≡ None }
    ensures told { D.contents disk.new ≡ None → D.contents disk.old ≡ None }
    ensures names { D.names disk.new ≡ D.names disk.old }
    ensures marks { MarksStay D.marked disk.old disk.new }
    ensures cause { HasCause (D.fault_count disk.old) (D.fault_count disk.new) result }
{
    close_gate(disk, place)?;
    fill_slot(disk, place, behind)?;
    open_gate(disk, place)
}

// Closes the gate at a place. One that is in the file and not open is left as it is: a stop in a write of it could open it
// over a body that never stood.
fn close_gate<D: Disk>(disk: &mut D, place: u64) -> Result<(), StepFault>
    ensures done { OnOk result ((file : List ℕ) → IsAt D.contents D.may_leave disk.old file
        → place ≡ next_place (standing_of file) → IsShut D.contents D.may_leave disk.new file place) }
    ensures stop { (file : List ℕ) → IsAt D.contents D.may_leave disk.old file → place ≡ next_place (standing_of file)
        → LeavesOnly D.moment D.left_since disk.old disk.new (λ c. standing_of c ≡ standing_of file) }
    ensures untold { D.contents disk.old ≡ None → D.contents disk.new ≡ None }
    ensures told { D.contents disk.new ≡ None → D.contents disk.old ≡ None }
    ensures names { D.names disk.new ≡ D.names disk.old }
    ensures marks { MarksStay D.marked disk.old disk.new }
    ensures cause { HasCause (D.fault_count disk.old) (D.fault_count disk.new) result }
{
    if is_gate_closed(disk, place)? {
        return Ok(());
    }
    write_and_sync(disk, place, &[0])
}

// Writes what stands behind the gate at a place.
fn fill_slot<D: Disk>(disk: &mut D, place: u64, behind: &[u8]) -> Result<(), StepFault>
    requires { place < 2 ^ 32 }
    ensures done { OnOk result ((file : List ℕ) (slot : Slot) → IsAt D.contents D.may_leave disk.old file
        → place ≡ next_place (standing_of file) → has_closed_gate place file ≡ true
        → behind.now ≡ behind_gate slot → length slot.body ≤ MAX_BODY
        → IsFull D.contents D.may_leave disk.new file place slot) }
    ensures stop { (file : List ℕ) (slot : Slot) → IsAt D.contents D.may_leave disk.old file
        → place ≡ next_place (standing_of file) → has_closed_gate place file ≡ true
        → behind.now ≡ behind_gate slot → length slot.body ≤ MAX_BODY
        → LeavesOnly D.moment D.left_since disk.old disk.new (λ c. standing_of c ≡ standing_of file) }
    ensures untold { D.contents disk.old ≡ None → D.contents disk.new ≡ None }
    ensures told { D.contents disk.new ≡ None → D.contents disk.old ≡ None }
    ensures names { D.names disk.new ≡ D.names disk.old }
    ensures marks { MarksStay D.marked disk.old disk.new }
    ensures cause { HasCause (D.fault_count disk.old) (D.fault_count disk.new) result }
{
    write_and_sync(disk, place + 1, behind)
}

// Opens the gate at a place.
fn open_gate<D: Disk>(disk: &mut D, place: u64) -> Result<(), StepFault>
    ensures done { OnOk result ((file body : List ℕ) → IsAt D.contents D.may_leave disk.old file → MaySave file body
        → place ≡ next_place (standing_of file) → IsFilled place (next_slot (standing_of file) body) file
        → StandsFor D.contents D.may_leave disk.new (standing_after (standing_of file) body)) }
    ensures stop { (file body : List ℕ) → IsAt D.contents D.may_leave disk.old file → MaySave file body
        → place ≡ next_place (standing_of file) → IsFilled place (next_slot (standing_of file) body) file
        → LeavesOnly D.moment D.left_since disk.old disk.new (IsBeforeOrAfter file body) }
    ensures untold { D.contents disk.old ≡ None → D.contents disk.new ≡ None }
    ensures told { D.contents disk.new ≡ None → D.contents disk.old ≡ None }
    ensures names { D.names disk.new ≡ D.names disk.old }
    ensures marks { MarksStay D.marked disk.old disk.new }
    ensures cause { HasCause (D.fault_count disk.old) (D.fault_count disk.new) result }
{
    write_and_sync(disk, place, &[1])
}

// Writes bytes and brings them to the disk.
#[tactic(auto, using(crate::proofs::StepLemmas::untold_after, crate::proofs::StepLemmas::told_after))]
fn write_and_sync<D: Disk>(disk: &mut D, at: u64, bytes: &[u8]) -> Result<(), StepFault>
    ensures done { OnOk result ((file : List ℕ) → IsAt D.contents D.may_leave disk.old file
        → IsAt D.contents D.may_leave disk.new (written at bytes.now file)) }
    ensures stop { (file : List ℕ) → IsAt D.contents D.may_leave disk.old file
        → LeavesOnly D.moment D.left_since disk.old disk.new (Torn at (length bytes.now) file) }
    ensures untold { D.contents disk.old ≡ None → D.contents disk.new ≡ None }
    ensures told { D.contents disk.new ≡ None → D.contents disk.old ≡ None }
    ensures names { D.names disk.new ≡ D.names disk.old }
    ensures marks { MarksStay D.marked disk.old disk.new }
    ensures cause { HasCause (D.fault_count disk.old) (D.fault_count disk.new) result }
{
    match disk.write_at(at, bytes) {
        Wrote::All => {}
        Wrote::Failed => return Err(StepFault::Failed),
        Wrote::Memory => return Err(StepFault::Memory),
    }
    match disk.sync() {
        Synced::Done => Ok(()),
        Synced::Failed => Err(StepFault::Failed),
    }
}

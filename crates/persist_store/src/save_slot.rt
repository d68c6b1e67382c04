//! A body is saved in the slot that does not stand.

ghost use Rattle.std.specs.Prelude.{◌≡◌, ◌≤◌, ◌<◌, ◌^◌, ◌++◌, List, ℕ, true, length, None, option_map, IfOk, OnOk};
ghost use Rattle.spec_store.specs.BodyText.{is_body_text};
ghost use Rattle.spec_store.specs.Disk.{LeavesOnly};
ghost use Rattle.spec_store.specs.Slots as slots;
ghost use Rattle.spec_store.specs.Slots.{standing_of, behind_gate};
ghost use Rattle.spec_store.specs.Saves.{goes_second, next_sequence, next_slot, standing_after};
ghost use Rattle.spec_store.specs.Laws.{IsBeforeOrAfter};
ghost use Rattle.persist_store.specs.Marks.{MarksStay};
ghost use Rattle.persist_store.specs.Slots.{standing_kept};
ghost use Rattle.persist_store.specs.Steps.{IsAt, HasCause, StandsFor};

use crate::Disk;
use crate::opening::place_of;
use crate::save_steps::write_slot;
use crate::standing_slot::StandingSlot;
use crate::step_fault::StepFault;
use ads_base::{NoMemory, Octets, put32, put64};
use std::alloc::Global;

/// Saves a body in the slot that does not stand, and gives what stands then.
pub fn save_slot<D: Disk>(
    alloc: Global,
    disk: &mut D,
    standing: &Option<StandingSlot>,
    body: &[u8],
) -> Result<StandingSlot, StepFault>
    requires text { is_body_text body.now ≡ true }
    requires short { length body.now ≤ slots.MAX_BODY }
    requires number { next_sequence (option_map standing_kept standing.now) < 2 ^ 64 }
    ensures slot { IfOk result (λ slot. standing_kept slot ≡ standing_after (option_map standing_kept standing.now) body.now) }
    ensures done { OnOk result ((file : List ℕ) → IsAt D.contents D.may_leave disk.old file
        → standing_of file ≡ option_map standing_kept standing.now
        → StandsFor D.contents D.may_leave disk.new (standing_after (standing_of file) body.now)) }
    ensures stop { (file : List ℕ) → IsAt D.contents D.may_leave disk.old file
        → standing_of file ≡ option_map standing_kept standing.now
        → LeavesOnly D.moment D.left_since disk.old disk.new (IsBeforeOrAfter file body.now) }
    ensures untold { D.contents disk.old ≡ None → D.contents disk.new ≡ None }
    ensures told { D.contents disk.new ≡ None → D.contents disk.old ≡ None }
    ensures names { D.names disk.new ≡ D.names disk.old }
    ensures marks { MarksStay D.marked disk.old disk.new }
    ensures cause { HasCause (D.fault_count disk.old) (D.fault_count disk.new) result }
{
    let slot = match next_slot(alloc, standing, body) {
        Ok(slot) => slot,
        Err(NoMemory) => return Err(StepFault::Memory),
    };
    let behind = match behind_gate(alloc, &slot) {
        Ok(behind) => behind,
        Err(NoMemory) => return Err(StepFault::Memory),
    };
    match write_slot(disk, place_of(slot.is_second), behind.as_slice()) {
        Ok(()) => Ok(slot),
        Err(fault) => Err(fault),
    }
}

// What stands after a save.
fn next_slot(
    alloc: Global,
    standing: &Option<StandingSlot>,
    body: &[u8],
) -> Result<StandingSlot, NoMemory>
    requires { next_sequence (option_map standing_kept standing.now) < 2 ^ 64 }
    ensures { IfOk result (λ slot. standing_kept slot ≡ standing_after (option_map standing_kept standing.now) body.now) }
{
    let copy = Octets::copy_of(alloc, body)?;
    match standing {
        None => Ok(StandingSlot {
            is_second: false,
            sequence: 1,
            body: copy,
        }),
        Some(slot) => Ok(StandingSlot {
            is_second: !slot.is_second,
            sequence: slot.sequence + 1,
            body: copy,
        }),
    }
}

// What stands behind the gate of a slot: its number, the length of its body, and the body.
fn behind_gate(alloc: Global, slot: &StandingSlot) -> Result<Octets, NoMemory>
    requires { length slot.now.body ≤ slots.MAX_BODY }
    ensures { IfOk result (λ text. text ≡ behind_gate (standing_kept slot.now).slot) }
{
    let mut text = Octets::new(alloc);
    put64(alloc, &mut text, slot.sequence)?;
    put32(alloc, &mut text, slot.body.len() as u32)?;
    text.put(alloc, slot.body.as_slice())?;
    Ok(text)
}

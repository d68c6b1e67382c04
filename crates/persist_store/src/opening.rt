//! The slot that a file stands for is read.

ghost use Rattle.std.specs.Prelude.{◌≡◌, ◌≤◌, List, ℕ, false, true, Option, Some, option_map, length, take, drop, IfOk, OnOk};
ghost use Rattle.spec_store.specs.Slots.{Slot, Standing, slot_of, standing_of, standing_of_slots};
ghost use Rattle.spec_store.specs.Saves.{place_of};
ghost use Rattle.persist_store.specs.Marks.{MarksStay};
ghost use Rattle.persist_store.specs.Slots.{MAX_SLOT, standing_kept, placed};
ghost use Rattle.persist_store.specs.Steps.{IsAt, HasCause, OpensFile, Passes};

use crate::slot_text::{MAX_SLOT, SECOND_SLOT, read_slot};
use crate::standing_slot::StandingSlot;
use crate::step_fault::StepFault;
use crate::{Disk, DiskOpen, DiskRead, Synced};
use ads_base::{NoMemory, Octets};
use std::alloc::Global;

/// Opens a file, brings it to the disk, and reads what it stands for.
#[tactic(auto, using(crate::proofs::NameLemmas::file_behind))]
pub fn open_standing<D: Disk>(
    alloc: Global,
    disk: &mut D,
    name: &str,
) -> Result<Option<StandingSlot>, StepFault>
    ensures told { IfOk result (λ standing. (file : List ℕ) → D.contents disk.old ≡ Some file
        → IsAt D.contents D.may_leave disk.new file × (option_map standing_kept standing ≡ standing_of file)) }
    ensures passes { Passes D.contents D.may_leave D.moment D.left_since disk.old disk.new }
    ensures named { OpensFile result (D.names disk.old) (D.names disk.new) name.now }
    ensures marks { MarksStay D.marked disk.old disk.new }
    ensures cause { HasCause (D.fault_count disk.old) (D.fault_count disk.new) result }
{
    open_file(disk, name)?;
    let first = slot_at(alloc, disk, false)?;
    let second = slot_at(alloc, disk, true)?;
    Ok(later_slot(first, second))
}

// Opens a file, and brings what may be pending of it to the disk.
fn open_file<D: Disk>(disk: &mut D, name: &str) -> Result<(), StepFault>
    ensures synced { OnOk result ((file : List ℕ) → D.contents disk.old ≡ Some file
        → IsAt D.contents D.may_leave disk.new file) }
    ensures passes { Passes D.contents D.may_leave D.moment D.left_since disk.old disk.new }
    ensures named { OpensFile result (D.names disk.old) (D.names disk.new) name.now }
    ensures marks { MarksStay D.marked disk.old disk.new }
    ensures cause { HasCause (D.fault_count disk.old) (D.fault_count disk.new) result }
{
    match disk.open(name) {
        DiskOpen::Ready(_) => {}
        DiskOpen::Failed => return Err(StepFault::Failed),
        DiskOpen::Memory => return Err(StepFault::Memory),
    }
    match disk.sync() {
        Synced::Done => Ok(()),
        Synced::Failed => Err(StepFault::Failed),
    }
}

// The second slot of a file or the first one, where it counts.
fn slot_at<D: Disk>(
    alloc: Global,
    disk: &mut D,
    is_second: bool,
) -> Result<Option<StandingSlot>, StepFault>
    ensures told { IfOk result (λ slot. (file : List ℕ) → D.contents disk.old ≡ Some file
        → option_map standing_kept slot ≡ option_map (placed is_second) (slot_of (drop (place_of is_second) file))) }
    ensures passes { Passes D.contents D.may_leave D.moment D.left_since disk.old disk.new }
    ensures names { D.names disk.new ≡ D.names disk.old }
    ensures marks { MarksStay D.marked disk.old disk.new }
    ensures cause { HasCause (D.fault_count disk.old) (D.fault_count disk.new) result }
{
    let mut room = match zeros(alloc, MAX_SLOT) {
        Ok(room) => room,
        Err(NoMemory) => return Err(StepFault::Memory),
    };
    let found = read_into(disk, place_of(is_second), room.as_mut_slice())?;
    match copy_of_slot(alloc, is_second, &room[..found]) {
        Ok(slot) => Ok(slot),
        Err(NoMemory) => Err(StepFault::Memory),
    }
}

// So many zeros.
fn zeros(alloc: Global, n: usize) -> Result<Vec<u8>, NoMemory>
    ensures { IfOk result (λ zeros. length zeros.items ≡ n) }
{
    Ok(vec![in alloc; 0u8; n]?)
}

// Reads what stands at a place into a room for a slot, and tells how many bytes of it were filled.
#[tactic(auto, using(crate::proofs::OpeningLemmas::slot_read))]
fn read_into<D: Disk>(disk: &mut D, place: u64, room: &mut [u8]) -> Result<usize, StepFault>
    requires { length room.old ≡ MAX_SLOT }
    ensures slot { IfOk result (λ n. (file : List ℕ) → D.contents disk.old ≡ Some file
        → slot_of (take n room.new) ≡ slot_of (drop place file)) }
    ensures within { IfOk result (λ n. n ≤ length room.new) }
    ensures passes { Passes D.contents D.may_leave D.moment D.left_since disk.old disk.new }
    ensures names { D.names disk.new ≡ D.names disk.old }
    ensures marks { MarksStay D.marked disk.old disk.new }
    ensures cause { HasCause (D.fault_count disk.old) (D.fault_count disk.new) result }
{
    match disk.read(place, room) {
        DiskRead::Bytes(n) => Ok(n as usize),
        DiskRead::Failed => Err(StepFault::Failed),
    }
}

// The slot at the front of these bytes, where it counts.
fn copy_of_slot(
    alloc: Global,
    is_second: bool,
    bytes: &[u8],
) -> Result<Option<StandingSlot>, NoMemory>
    ensures { IfOk result (λ slot. option_map standing_kept slot ≡ option_map (placed is_second) (slot_of bytes.now)) }
{
    match read_slot(bytes) {
        None => Ok(None),
        Some(slot) => {
            let body = Octets::copy_of(alloc, slot.body)?;
            Ok(Some(StandingSlot {
                is_second,
                sequence: slot.sequence,
                body,
            }))
        }
    }
}

// The one of the greater number, and the first where they are equal.
fn later_slot(first: Option<StandingSlot>, second: Option<StandingSlot>) -> Option<StandingSlot>
    ensures { (a b : Option Slot) → option_map standing_kept first ≡ option_map (placed false) a
        → option_map standing_kept second ≡ option_map (placed true) b
        → option_map standing_kept result ≡ standing_of_slots a b }
{
    match first {
        None => second,
        Some(a) => match second {
            None => Some(a),
            Some(b) => {
                if b.sequence <= a.sequence {
                    Some(a)
                } else {
                    Some(b)
                }
            }
        },
    }
}

/// The place of the second slot or of the first one.
pub fn place_of(is_second: bool) -> u64
    ensures { result ≡ place_of is_second }
{
    if is_second { SECOND_SLOT } else { 0 }
}

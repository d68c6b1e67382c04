//! The gate of a slot is looked at.

ghost use Rattle.std.specs.Prelude.{◌≡◌, List, ℕ, Some, IfOk};
ghost use Rattle.spec_store.specs.Disk.{Elapses};
ghost use Rattle.spec_store.specs.Saves.{has_closed_gate};
ghost use Rattle.persist_store.specs.Marks.{MarksStay};
ghost use Rattle.persist_store.specs.Steps.{Stays, HasCause};

use crate::step_fault::StepFault;
use crate::{Disk, DiskRead};

/// Whether the gate at a place is in the file and is not open.
pub fn is_gate_closed<D: Disk>(disk: &mut D, place: u64) -> Result<bool, StepFault>
    ensures closed { IfOk result (λ closed. (file : List ℕ) → D.contents disk.old ≡ Some file
        → closed ≡ has_closed_gate place file) }
    ensures stays { Stays D.contents D.may_leave disk.old disk.new }
    ensures time { Elapses (D.moment disk.old) (D.moment disk.new) (D.left_since disk.old) (D.left_since disk.new) (D.may_leave disk.new) }
    ensures names { D.names disk.new ≡ D.names disk.old }
    ensures marks { MarksStay D.marked disk.old disk.new }
    ensures cause { HasCause (D.fault_count disk.old) (D.fault_count disk.new) result }
{
    let mut gate = [0u8; 1];
    match disk.read(place, &mut gate) {
        DiskRead::Bytes(n) => Ok(n == 1 && gate[0] != 1),
        DiskRead::Failed => Err(StepFault::Failed),
    }
}

//! Marks of how far a wire is, behind a save.

ghost use Rattle.std.specs.Prelude.{◌≡◌, ◌≤◌};
ghost use Rattle.persist_store.specs.Marks.{MarksOne};
ghost use Rattle.persist_store.specs.Steps.{Passes};
ghost use Rattle.keep_loop.specs.Marking.{MarksAtEnd};

use ads_outside::Wire;
use persist_store::Disk;

/// Marks how far a wire is.
pub(crate) fn mark_behind<W: Wire, D: Disk>(wire: &W, disk: &mut D)
    ensures marks { MarksOne D.marked disk.old disk.new (W.state wire.now).history (D.contents disk.old) }
    ensures passes { Passes D.contents D.may_leave D.moment D.left_since disk.old disk.new }
    ensures names { D.names disk.new ≡ D.names disk.old }
    ensures later { D.fault_count disk.old ≤ D.fault_count disk.new }
{
    disk.mark(wire)
}

/// The same at the end of a run, where it came to it.
#[tactic(auto, using(crate::proofs::QuietLemmas::quiet_none))]
pub(crate) fn mark_end<W: Wire, D: Disk>(wire: &W, disk: &mut D, to_end: bool)
    ensures marks { MarksAtEnd to_end D.marked disk.old disk.new (W.state wire.now).history (D.contents disk.old) }
    ensures passes { Passes D.contents D.may_leave D.moment D.left_since disk.old disk.new }
    ensures names { D.names disk.new ≡ D.names disk.old }
    ensures later { D.fault_count disk.old ≤ D.fault_count disk.new }
{
    if to_end {
        mark_behind(wire, disk)
    }
}

//! The frames of samples that connections give are produced, one after another.

ghost use Rattle.std.specs.Prelude.{◌≡◌, length, OnOk, Some};
ghost use Rattle.connections.specs.Outlets.{outlet_at};
ghost use Rattle.connections.specs.declared.outlet.Outlet.{Outlet};
ghost use Rattle.server_core.specs.Delivering.{DeliversAll, DeliversAt, delivered, delivered_all};

use crate::Summary;
use crate::turned::Turned;
use ads_base::NoMemory;
use connections::Outlets;
use session::{FrameList, NoteFrame};
use std::alloc::Global;
use std::mem;

/// All frames that the sessions gave are produced. A connection whose frame does not fit is closing from then on.
pub(crate) fn deliver(
    alloc: Global,
    outlets: &mut Outlets,
    sessions: &mut Vec<Turned>,
    summary: &mut Summary,
) -> Result<(), NoMemory>
    requires { length sessions.old.items ≡ length outlets.old }
    ensures { OnOk result (DeliversAll sessions.old.items sessions.new.items outlets.old outlets.new summary.old summary.new) }
{
    for i in 0..sessions.len() {
        let frames = mem::replace(&mut sessions[i].out, FrameList::new(alloc));
        deliver_frames(alloc, outlets, i, frames.as_slice(), summary)?;
    }
    Ok(())
}

// Those of one session.
fn deliver_frames(
    alloc: Global,
    outlets: &mut Outlets,
    i: usize,
    frames: &[NoteFrame],
    summary: &mut Summary,
) -> Result<(), NoMemory>
    ensures { OnOk result ((o : Outlet) → outlet_at outlets.old i ≡ Some o
        → DeliversAt i (delivered_all frames.now (o, summary.old)) outlets.old outlets.new summary.new) }
{
    for note in frames {
        deliver_note(alloc, outlets, i, note, summary)?;
    }
    Ok(())
}

// A frame waits behind the others, or does not fit and closes the connection, which takes no more.
fn deliver_note(
    alloc: Global,
    outlets: &mut Outlets,
    i: usize,
    note: &NoteFrame,
    summary: &mut Summary,
) -> Result<(), NoMemory>
    ensures { OnOk result ((o : Outlet) → outlet_at outlets.old i ≡ Some o
        → DeliversAt i (delivered note.now (o, summary.old)) outlets.old outlets.new summary.new) }
{
    if outlets.give(alloc, i, note.frame.as_slice())? {
        summary.count_samples(note.samples);
    }
    Ok(())
}

//! Notifications that ended are told so.

ghost use Rattle.std.specs.Prelude.{◌≡◌, ◌≤◌, length, map, All, IfOk, OnOk};
ghost use Rattle.spec_machine.specs.Stamps.{frames_of_samples};
ghost use Rattle.session.specs.NoteFrames.{produced_of, IsNoteFrame};
ghost use Rattle.session.specs.NoteGroups.{no_groups, grouped_text};
ghost use Rattle.session.specs.NotesEnded.{samples_of_ended};

use crate::FrameList;
use crate::notes_groups::NoteGroups;
use ads_base::{NetId, NoMemory};
use notify_table::Ended;
use std::alloc::Global;

/// The frames of notifications that ended: a sample of no byte for each, from this NetId at this moment.
pub(crate) fn end_frames(
    alloc: Global,
    ended: &[Ended],
    net: NetId,
    time: u64,
) -> Result<FrameList, NoMemory>
    requires { length ended.now ≤ 512 }
    ensures frames { IfOk result (λ frames.
        map produced_of frames ≡ frames_of_samples net.bytes time (samples_of_ended ended.now)) }
    ensures short { IfOk result (All IsNoteFrame) }
{
    let mut groups = NoteGroups::new(alloc, ended.len());
    add_ended(alloc, ended, &mut groups)?;
    groups.into_frames(alloc, net, time)
}

fn add_ended(alloc: Global, ended: &[Ended], groups: &mut NoteGroups) -> Result<(), NoMemory>
    requires few { length ended.now ≤ 512 }
    requires none { groups.old ≡ no_groups }
    ensures { OnOk result (groups.new.groups ≡ grouped_text (samples_of_ended ended.now)) }
{
    for end in ended {
        groups.add(alloc, end.port, end.to, end.handle, &[])?;
    }
    Ok(())
}

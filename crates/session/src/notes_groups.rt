//! The frames of samples of one client, one for each port and client address.

ghost use Rattle.std.specs.Prelude.{◌≡◌, ◌+◌, ◌<◌, ◌≤◌, [], ◌∷◌, ◌++◌, length, map, All, IfOk, OnOk, position};
ghost use Rattle.notify_table.specs.Specs.{address_of};
ghost use Rattle.session.specs.NoteFrames.{produced_of, IsNoteFrame};
ghost use Rattle.session.specs.NoteGroups.{no_groups, is_group_for, groups_with, addressed, frame_of_group, group_with, sample, no_samples};

use crate::FrameList;
use crate::notes_group::NoteGroup;
use ads_base::{AmsAddr, NetId, NoMemory};
use std::alloc::Global;
use std::marker::Model;

/// Groups of samples, in the order of their first one. Contracts see the groups, and how many samples they have together at
/// most.
///
/// The group of a sample is found by a walk, so k groups cost k comparisons a sample; a client has at most 512 notifications.
#[derive(Drop)]
pub(crate) struct NoteGroups {
    groups: Vec<NoteGroup>,
    added: u32,
    // Mostly all samples are of one group, so the first makes room for so many at once.
    expected: usize,
}

impl Model for NoteGroups {
    ghost use Rattle.std.specs.Prelude.{◌≤◌, All};
    ghost use Rattle.session.specs.NoteGroups.{GroupTexts};

    ghost Value = { GroupTexts };

    ghost view = { λ g. record { groups = g.groups.items; added = g.added } };

    ghost invariant = { λ g. All (λ group. group.count ≤ g.added) g.groups.items };
}

impl NoteGroups {
    /// No groups yet, where so many samples may come.
    pub fn new(alloc: Global, expected: usize) -> NoteGroups
        ensures { result ≡ no_groups }
    {
        NoteGroups {
            groups: Vec::new(alloc),
            added: 0,
            expected,
        }
    }

    /// Adds a sample. After want of memory the groups are not used again.
    #[inline(always)]
    pub fn add(
        &mut self,
        alloc: Global,
        port: u16,
        to: AmsAddr,
        handle: u32,
        bytes: &[u8],
    ) -> Result<(), NoMemory>
        requires few { self.old.added < 512 }
        requires short { length bytes.now ≤ 2048 }
        ensures groups { OnOk result (self.new.groups ≡ groups_with (addressed port (address_of to) handle bytes.now) self.old.groups) }
        ensures added { self.new.added ≡ self.old.added + 1 }
    {
        self.added += 1;
        match self.group_for(port, to) {
            Some(at) => self.groups[at].add(alloc, handle, bytes),
            None => self.begin(alloc, port, to, handle, bytes),
        }
    }

    // The first group that is for these samples.
    fn group_for(&self, port: u16, to: AmsAddr) -> Option<usize>
        ensures { result ≡ position (is_group_for port (address_of to)) self.now.groups }
    {
        self.groups.iter().position(|group| group.is_for(port, to))
    }

    #[inline(never)]
    fn begin(
        &mut self,
        alloc: Global,
        port: u16,
        to: AmsAddr,
        handle: u32,
        bytes: &[u8],
    ) -> Result<(), NoMemory>
        requires some { 0 < self.old.added }
        requires short { length bytes.now ≤ 2048 }
        ensures ok { OnOk result (self.new.groups ≡ self.old.groups
            ++ group_with (sample handle bytes.now) (no_samples port (address_of to)) ∷ []) }
        ensures added { self.new.added ≡ self.old.added }
    {
        let expected = if self.groups.is_empty() {
            self.expected
        } else {
            1
        };
        let mut group = NoteGroup::new(alloc, port, to, expected)?;
        group.add(alloc, handle, bytes)?;
        self.groups.push(group)?;
        Ok(())
    }

    /// The frames, from this NetId at this moment.
    pub fn into_frames(self, alloc: Global, net: NetId, now: u64) -> Result<FrameList, NoMemory>
        ensures frames { IfOk result (λ frames. map produced_of frames ≡ map (frame_of_group net.bytes now) self.groups) }
        ensures short { IfOk result (All IsNoteFrame) }
    {
        let NoteGroups {
            groups,
            added: _,
            expected: _,
        } = self;
        let mut frames = FrameList::new(alloc);
        for group in groups {
            frames.push(alloc, group.into_frame(net, now))?;
        }
        Ok(frames)
    }
}

//! The samples that go from one port to one address, written into their frame.

ghost use Rattle.std.specs.Prelude.{◌≡◌, ◌+◌, ◌<◌, ◌≤◌, ◌++◌, length, IfOk, OnOk};
ghost use Rattle.std.specs.Int.{w32, to_le_bytes};
ghost use Rattle.spec_formats.specs.Header.{is_same_address};
ghost use Rattle.spec_formats.specs.Notification.{sample_bytes};
ghost use Rattle.notify_table.specs.Specs.{address_of};
ghost use Rattle.session.specs.NoteFrames.{produced_of, IsNoteFrame};
ghost use Rattle.session.specs.NoteGroups.{is_group_for, no_samples, group_with, sample, frame_of_group};

use crate::NoteFrame;
use crate::notes_head::{HEAD, put_head};
use ads_base::{AmsAddr, NetId, NoMemory, Octets};
use std::alloc::Global;
use std::marker::Model;

// How many bytes stand before those of a sample: handle 4, size 4.
const SAMPLE_HEAD: usize = 8;

// A connection has no more notifications.
const MOST_SAMPLES: usize = 512;

// How many bytes a sample of four bytes has.
const SAMPLE_OF_FOUR: usize = 12;

// How many bytes a sample of two bytes has.
const SAMPLE_OF_TWO: usize = 10;

/// Samples from a port to an address. Contracts see how many they are, and their text.
#[derive(Drop)]
pub(crate) struct NoteGroup {
    port: u16,
    to: AmsAddr,
    count: u32,
    // Room for what stands before the samples, and the samples.
    bytes: Octets,
}

impl Model for NoteGroup {
    ghost use Rattle.std.specs.Prelude.{◌+◌, ◌*◌, ◌≤◌, length, drop};
    ghost use Rattle.notify_table.specs.Specs.{address_of};
    ghost use Rattle.session.specs.NoteGroups.{GroupText};

    ghost Value = { GroupText };

    ghost view = { λ g. record { port = g.port; address = address_of g.to; count = g.count; text = drop 58 g.bytes } };

    ghost invariant = { λ g. (58 ≤ length g.bytes) × (g.count ≤ 512) × (length g.bytes ≤ 58 + 2056 * g.count) };
}

impl NoteGroup {
    /// No samples yet, and room for so many of four bytes.
    pub fn new(
        alloc: Global,
        port: u16,
        to: AmsAddr,
        expected: usize,
    ) -> Result<NoteGroup, NoMemory>
        ensures { IfOk result (λ group. group ≡ no_samples port (address_of to)) }
    {
        let mut bytes = Octets::new(alloc);
        bytes.reserve(alloc, HEAD + expected.min(MOST_SAMPLES) * SAMPLE_OF_FOUR)?;
        bytes.put(alloc, &[0; HEAD])?;
        Ok(NoteGroup {
            port,
            to,
            count: 0,
            bytes,
        })
    }

    /// Whether the samples of this port and address belong here.
    pub fn is_for(&self, port: u16, to: AmsAddr) -> bool
        ensures { result ≡ is_group_for port (address_of to) self.now }
    {
        self.port == port && are_same(to, self.to)
    }

    /// Adds a sample. After want of memory a part of it may stand there.
    #[inline(always)]
    pub fn add(&mut self, alloc: Global, handle: u32, bytes: &[u8]) -> Result<(), NoMemory>
        requires few { self.old.count < 512 }
        requires short { length bytes.now ≤ 2048 }
        ensures ok { OnOk result (self.new ≡ group_with (sample handle bytes.now) self.old) }
        ensures count { self.new.count ≡ self.old.count + 1 }
    {
        self.count += 1;
        put_sample(alloc, handle, bytes, &mut self.bytes)?;
        Ok(())
    }

    /// The frame, from this NetId at this moment.
    pub fn into_frame(self, net: NetId, now: u64) -> NoteFrame
        ensures frame { produced_of result ≡ frame_of_group net.bytes now self }
        ensures short { IsNoteFrame result }
    {
        let NoteGroup {
            port,
            to,
            count,
            mut bytes,
        } = self;
        let from = AmsAddr { net, port };
        put_head(&mut bytes, to, from, now, count);
        NoteFrame {
            samples: count,
            frame: bytes,
        }
    }
}

// Whether two addresses are the same.
fn are_same(a: AmsAddr, b: AmsAddr) -> bool
    ensures { result ≡ is_same_address (address_of a) (address_of b) }
{
    a.net.is(b.net) && a.port == b.port
}

// Appends a sample. After want of memory a part of it may stand there.
#[inline(always)]
fn put_sample(alloc: Global, handle: u32, bytes: &[u8], out: &mut Octets) -> Result<(), NoMemory>
    requires { length bytes.now ≤ 2048 }
    ensures ok { OnOk result (out.new ≡ out.old ++ sample_bytes (sample handle bytes.now)) }
    ensures longer { length out.old ≤ length out.new }
    ensures short { length out.new ≤ length out.old + 2056 }
{
    // Most samples have four or two bytes, and are appended in one step.
    if let Some(four) = bytes.as_array::<4>() {
        return out.put_array(alloc, &sample_of_four(handle, *four));
    }
    if let Some(two) = bytes.as_array::<2>() {
        return out.put_array(alloc, &sample_of_two(handle, *two));
    }
    out.put_array(alloc, &sample_head(handle, bytes.len() as u32))?;
    out.put(alloc, bytes)?;
    Ok(())
}

// What stands before the bytes of a sample: handle 4, size 4.
fn sample_head(handle: u32, len: u32) -> [u8; SAMPLE_HEAD]
    ensures { result ≡ to_le_bytes w32 handle ++ to_le_bytes w32 len }
{
    let [h0, h1, h2, h3] = handle.to_le_bytes();
    let [l0, l1, l2, l3] = len.to_le_bytes();
    [h0, h1, h2, h3, l0, l1, l2, l3]
}

// A sample of four bytes.
fn sample_of_four(handle: u32, bytes: [u8; 4]) -> [u8; SAMPLE_OF_FOUR]
    ensures { result ≡ sample_bytes (sample handle bytes) }
{
    let [h0, h1, h2, h3, l0, l1, l2, l3] = sample_head(handle, 4);
    let [b0, b1, b2, b3] = bytes;
    [h0, h1, h2, h3, l0, l1, l2, l3, b0, b1, b2, b3]
}

// A sample of two bytes.
fn sample_of_two(handle: u32, bytes: [u8; 2]) -> [u8; SAMPLE_OF_TWO]
    ensures { result ≡ sample_bytes (sample handle bytes) }
{
    let [h0, h1, h2, h3, l0, l1, l2, l3] = sample_head(handle, 2);
    let [b0, b1] = bytes;
    [h0, h1, h2, h3, l0, l1, l2, l3, b0, b1]
}

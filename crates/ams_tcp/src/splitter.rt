//! The splitter: pieces of a stream go in, frames come out.

ghost use Rattle.std.specs.Prelude.{◌≡◌, ◌+◌, ◌<◌, length, IfOk, OnOk, OnErr};
ghost use Rattle.spec_frames.specs.Division.{front_of, Whole};
ghost use Rattle.ams_tcp.specs.History.{Represents, nothing_fed};

use crate::front::{HEADER, front_at, header_at};
use crate::{Cut, Peeked};
use ads_base::{NoMemory, Octets, get32};
use std::alloc::Global;
use std::marker::Model;
use std::mem;

/// Cuts a stream into frames, in whatever pieces it comes. Contracts see the bytes behind the frames that were
/// given, how many bytes of those frames are still kept, and whether Broken was answered; what a splitter answers is
/// said of every history that it stands for.
#[derive(Drop)]
pub struct Splitter {
    bytes: Vec<u8>,
    // Frames are passed over by this offset, and the rest is moved at the next feed.
    start: usize,
    told_broken: bool,
}

impl Model for Splitter {
    ghost use Rattle.std.specs.Prelude.{◌≡◌, ◌≤◌, length, drop, IsTrue};
    ghost use Rattle.spec_frames.specs.Division.{front_of, Broken};
    ghost use Rattle.ams_tcp.specs.Held.{Held};

    ghost Value = { Held };

    ghost view = { λ s. record {
      passed = s.start;
      rest = drop s.start s.bytes.items;
      told_broken = s.told_broken;
    } };

    ghost invariant = { λ s. (s.start ≤ length s.bytes.items)
        × (IsTrue s.told_broken → (front_of (drop s.start s.bytes.items) ≡ Broken)
        × (6 ≤ length (drop s.start s.bytes.items))) };
}

impl Splitter {
    ghost use Rattle.ams_tcp.specs.History.{History, Represents, nothing_fed, after_feed, answer_of, after_next};
    ghost use Rattle.ams_tcp.specs.History.{broken_of, cut_of, IsFrameCut, HoldsPacket};

    /// A splitter that was fed nothing. Nothing is allocated.
    pub fn new(alloc: Global) -> Result<Self, NoMemory>
        ensures nothing { IfOk result (λ splitter. Represents splitter nothing_fed) }
        ensures passed { IfOk result (λ splitter. splitter.passed ≡ 0) }
    {
        Ok(fed_nothing(alloc))
    }

    /// Gives the stream away, and leaves a splitter that was fed nothing. Nothing is allocated.
    #[inline(always)]
    pub fn take(&mut self, alloc: Global) -> Splitter
        ensures given { result ≡ self.old }
        ensures nothing { Represents self.new nothing_fed }
        ensures passed { self.new.passed ≡ 0 }
    {
        mem::replace(self, fed_nothing(alloc))
    }

    /// Appends a piece to the stream. The bytes of frames that were given are let go.
    pub fn feed(&mut self, _alloc: Global, piece: &[u8]) -> Result<(), NoMemory>
        ensures ok { OnOk result ((h : History) → Represents self.old h → Represents self.new (after_feed h piece.now)) }
        ensures passed { self.new.passed ≡ 0 }
        ensures no_memory { OnErr result (self.new ≡ record self.old { passed = 0 }) }
    {
        self.move_to_front();
        self.bytes.extend_from_slice(piece)?;
        Ok(())
    }

    /// The next frame; NotYet where what is left is open, Broken where it is broken, from then on.
    pub fn next(&mut self, alloc: Global) -> Result<Cut, NoMemory>
        ensures answer { IfOk result (λ cut. (h : History) → Represents self.old h → cut ≡ answer_of h) }
        ensures stands { OnOk result ((h : History) → Represents self.old h → Represents self.new (after_next h)) }
        ensures packet { IfOk result HoldsPacket }
        ensures shorter { IfOk result (λ cut. IsFrameCut cut → length self.new.rest < length self.old.rest) }
        ensures passed { self.new.passed + length self.new.rest ≡ self.old.passed + length self.old.rest }
        ensures no_memory { OnErr result (self.new ≡ self.old) }
    {
        self.next_in(alloc, Octets::new(alloc))
    }

    /// The same with the packet in the room of bytes that are no longer needed, which are let go. Who gives each packet back
    /// for the next takes no memory once the room is as large as the packets.
    #[inline(always)]
    pub fn next_in(&mut self, alloc: Global, room: Octets) -> Result<Cut, NoMemory>
        ensures answer { IfOk result (λ cut. (h : History) → Represents self.old h → cut ≡ answer_of h) }
        ensures stands { OnOk result ((h : History) → Represents self.old h → Represents self.new (after_next h)) }
        ensures packet { IfOk result HoldsPacket }
        ensures shorter { IfOk result (λ cut. IsFrameCut cut → length self.new.rest < length self.old.rest) }
        ensures passed { self.new.passed + length self.new.rest ≡ self.old.passed + length self.old.rest }
        ensures no_memory { OnErr result (self.new ≡ self.old) }
    {
        match front_at(self.rest()) {
            Peeked::Frame(packet) => {
                let mut ams = room;
                ams.cut(0);
                ams.put(alloc, packet)?;
                self.pass_frame();
                Ok(Cut::Frame(ams))
            }
            Peeked::NotYet => Ok(Cut::NotYet),
            Peeked::Broken => {
                self.told_broken = true;
                Ok(Cut::Broken)
            }
        }
    }

    /// What `next` would answer, with the packet lent. The frame is still there: `pass_frame` passes over it.
    #[inline(always)]
    pub fn peek(&self) -> Peeked<'_>
        ensures answer { (h : History) → Represents self.now h → cut_of result ≡ answer_of h }
        ensures packet { HoldsPacket (cut_of result) }
        ensures whole { IsFrameCut (cut_of result) → front_of self.now.rest ≡ Whole }
    {
        front_at(self.rest())
    }

    /// Passes over the frame in front, as `next` does.
    #[inline(always)]
    pub fn pass_frame(&mut self)
        requires { front_of self.old.rest ≡ Whole }
        ensures stands { (h : History) → Represents self.old h → Represents self.new (after_next h) }
        ensures shorter { length self.new.rest < length self.old.rest }
        ensures passed { self.new.passed + length self.new.rest ≡ self.old.passed + length self.old.rest }
    {
        let len = get32(self.rest(), 2) as usize;
        self.start += HEADER + len;
    }

    /// The six bytes at the broken place; None until `next` has answered Broken.
    pub fn broken(&self) -> Option<[u8; 6]>
        ensures { (h : History) → Represents self.now h → result ≡ broken_of h }
    {
        if !self.told_broken {
            return None;
        }
        Some(header_at(self.rest()))
    }

    // The bytes behind the frames that were given.
    fn rest(&self) -> &[u8]
        ensures { result.now ≡ self.now.rest }
    {
        &self.bytes[self.start..]
    }

    // The bytes behind the frames that were given move to the front, and those of these frames go.
    fn move_to_front(&mut self)
        ensures { self.new ≡ record self.old { passed = 0 } }
    {
        if self.start > 0 {
            let len = self.bytes.len() - self.start;
            if len > 0 {
                self.bytes.copy_within(self.start.., 0);
            }
            self.bytes.truncate(len);
            self.start = 0;
        }
    }
}

// A splitter that was fed nothing.
fn fed_nothing(alloc: Global) -> Splitter
    ensures nothing { Represents result nothing_fed }
    ensures passed { result.passed ≡ 0 }
{
    Splitter {
        bytes: Vec::new(alloc),
        start: 0,
        told_broken: false,
    }
}

//! Frames one behind the other in one run of bytes.

ghost use Rattle.std.specs.Prelude.{◌≡◌, ◌+◌, ◌<◌, ◌≤◌, ◌↔◌, ◌^◌, [], ◌∷◌, ◌++◌, length, drop, sum, Some, IfSome, IsNone, OnOk, OnErr};
ghost use Rattle.std.specs.List.{concat};
ghost use Rattle.out_queue.specs.Queue.{front_of};
ghost use Rattle.out_queue.specs.Runs.{frames_in, AreParts};

use crate::lens::Lens;
use ads_base::NoMemory;
use std::alloc::Global;
use std::marker::Model;

// So much room is kept where no frame is left.
const MOST_SPARE: usize = 65_536;

// Where there is no room, bytes of frames that are gone are moved over if they are so many, and no fewer than those of frames
// that are left.
const MANY_GONE: usize = 4096;

// The frames, which contracts see as a list.
#[derive(Drop)]
pub(crate) struct FrameRun {
    // The frames, behind those that are gone.
    bytes: Vec<u8>,
    // How long each of them is.
    lens: Lens,
    // How many bytes are gone.
    gone: usize,
}

impl Model for FrameRun {
    ghost use Rattle.std.specs.Prelude.{◌≡◌, ◌+◌, ℕ, List, length, drop, sum};
    ghost use Rattle.out_queue.specs.Runs.{frames_in};

    ghost Value = { List (List ℕ) };

    ghost view = { λ r. frames_in r.lens (drop r.gone r.bytes.items) };

    ghost invariant = { λ r. r.gone + sum r.lens ≡ length r.bytes.items };
}

impl FrameRun {
    // No frame.
    pub(crate) fn new(alloc: Global) -> FrameRun
        ensures { result ≡ [] }
    {
        FrameRun {
            bytes: Vec::new(alloc),
            lens: Lens::new(alloc),
            gone: 0,
        }
    }

    // The frames that stand so in a run of bytes.
    pub(crate) fn of(bytes: Vec<u8>, lens: Lens, gone: usize) -> FrameRun
        requires { gone + sum lens ≡ length bytes.items }
        ensures { result ≡ frames_in lens (drop gone bytes.items) }
    {
        FrameRun { bytes, lens, gone }
    }

    // The run of bytes, how long each frame is, and how many bytes are gone, of which there are few.
    pub(crate) fn into_parts(mut self) -> (Vec<u8>, Lens, usize)
        ensures { AreParts self result.0.items result.1 result.2 }
    {
        self.move_up();
        let FrameRun { bytes, lens, gone } = self;
        (bytes, lens, gone)
    }

    // Puts a frame behind the others.
    pub(crate) fn push(&mut self, frame: &[u8]) -> Result<(), NoMemory>
        requires { length frame.now < 2 ^ 32 }
        ensures ok { OnOk result (self.new ≡ self.old ++ frame.now ∷ []) }
        ensures no_memory { OnErr result (self.new ≡ self.old) }
    {
        self.close_up(frame.len());
        let before = self.bytes.len();
        self.bytes.extend_from_slice(frame)?;
        match self.lens.push(frame.len() as u32) {
            Ok(()) => Ok(()),
            Err(NoMemory) => {
                self.bytes.truncate(before);
                Err(NoMemory)
            }
        }
    }

    // Puts a frame in two parts behind the others.
    #[inline(always)]
    pub(crate) fn push_parts(&mut self, front: &[u8], rest: &[u8]) -> Result<(), NoMemory>
        requires { length front.now + length rest.now < 2 ^ 32 }
        ensures ok { OnOk result (self.new ≡ self.old ++ (front.now ++ rest.now) ∷ []) }
        ensures no_memory { OnErr result (self.new ≡ self.old) }
    {
        let len = front.len() + rest.len();
        self.close_up(len);
        let before = self.bytes.len();
        append_parts(&mut self.bytes, front, rest)?;
        match self.lens.push(len as u32) {
            Ok(()) => Ok(()),
            Err(NoMemory) => {
                self.bytes.truncate(before);
                Err(NoMemory)
            }
        }
    }

    // The first frame.
    pub(crate) fn front(&self) -> Option<&[u8]>
        ensures none { IsNone result ↔ (self.now ≡ []) }
        ensures some { IfSome result (λ frame. front_of self.now ≡ Some frame.now) }
    {
        let len = self.lens.front()?;
        Some(&self.bytes[self.gone..self.gone + len as usize])
    }

    // All frames, one behind the other.
    #[inline(always)]
    pub(crate) fn all(&self) -> &[u8]
        ensures { concat self.now ≡ result.now }
    {
        &self.bytes[self.gone..]
    }

    // All frames are gone.
    pub(crate) fn clear(&mut self)
        ensures { self.new ≡ [] }
    {
        self.lens.clear();
        self.bytes.clear();
        self.bytes.shrink_to(MOST_SPARE);
        self.gone = 0;
    }

    // The first frame is gone. No other byte moves.
    pub(crate) fn pop(&mut self)
        ensures { self.new ≡ drop 1 self.old }
    {
        let Some(len) = self.lens.pop() else {
            return;
        };
        self.gone += len as usize;
        if self.lens.is_empty() {
            self.bytes.clear();
            self.bytes.shrink_to(MOST_SPARE);
            self.gone = 0;
        }
    }

    // Makes room for so many further bytes out of what is gone, where none is left.
    #[inline(always)]
    fn close_up(&mut self, more: usize)
        ensures { self.new ≡ self.old }
    {
        if more > self.bytes.capacity() - self.bytes.len() {
            self.move_up();
        }
    }

    // Moves what is left over what is gone, where that is more: a byte is moved at most once for each that is gone.
    #[inline(never)]
    fn move_up(&mut self)
        ensures { self.new ≡ self.old }
    {
        let left = self.bytes.len() - self.gone;
        if self.gone >= MANY_GONE && self.gone >= left {
            self.bytes.copy_within(self.gone.., 0);
            self.bytes.truncate(left);
            self.gone = 0;
        }
    }
}

// Appends both parts, or neither.
#[inline(always)]
fn append_parts(bytes: &mut Vec<u8>, front: &[u8], rest: &[u8]) -> Result<(), NoMemory>
    ensures ok { OnOk result (bytes.new.items ≡ bytes.old.items ++ (front.now ++ rest.now)) }
    ensures no_memory { OnErr result (bytes.new.items ≡ bytes.old.items) }
{
    let before = bytes.len();
    bytes.extend_from_slice(front)?;
    if bytes.extend_from_slice(rest).is_err() {
        bytes.truncate(before);
        return Err(NoMemory);
    }
    Ok(())
}

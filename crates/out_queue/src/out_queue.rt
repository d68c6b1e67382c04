//! Frames that wait to be taken, in the order in which they were pushed.
ghost use Rattle.std.specs.Prelude.{◌≡◌, ◌+◌, ◌<◌, ◌≤◌, ◌↔◌, [], ◌∷◌, ◌++◌, length, drop, IsSome, IfSome, IsNone, OnErr, Ok, IfOk};
ghost use Rattle.std.specs.List.{concat};
ghost use Rattle.out_queue.specs.Queue.{QUEUE_LIMIT, queued, front_of, FitsFront, frames_after};
ghost use Rattle.out_queue.specs.Kept.{left_of, CanStand};
ghost use Rattle.out_queue.specs.Open.{IsOpen, frames_of, tail_of};

use crate::frame_run::FrameRun;
use crate::open_queue::OpenQueue;
use ads_base::{NoMemory, Octets};
use std::alloc::Global;
use std::marker::Model;

/// How many bytes may wait.
pub const MAX_QUEUED: usize = 4_194_304;

/// What became of a frame.
#[derive(Clone, Copy, Debug, PartialEq, Eq)]
pub enum Pushed {
    /// It waits behind the others.
    Done,
    /// It does not fit, and nothing has changed.
    Over,
}

/// The frames that wait for one connection, which contracts see as the list of what is left of them.
#[derive(Drop)]
pub struct OutQueue {
    frames: FrameRun,
    // How many bytes of the first frame were taken.
    taken: usize,
    // How many bytes wait.
    bytes: usize,
}

impl Model for OutQueue {
    ghost use Rattle.std.specs.Prelude.{◌≡◌, ◌≤◌, ℕ, List};
    ghost use Rattle.out_queue.specs.Queue.{QUEUE_LIMIT, queued};
    ghost use Rattle.out_queue.specs.Kept.{left_of, IsTaken};

    ghost Value = { List (List ℕ) };

    ghost view = { λ q. left_of q.taken q.frames };

    ghost invariant = { λ q. IsTaken q.taken q.frames × (q.bytes ≡ queued (left_of q.taken q.frames)) × (q.bytes ≤ QUEUE_LIMIT) };
}

impl OutQueue {
    /// A queue in which nothing waits.
    pub fn new(alloc: Global) -> Result<OutQueue, NoMemory>
        ensures { IfOk result (λ queue. queue ≡ []) }
    {
        Ok(OutQueue {
            frames: FrameRun::new(alloc),
            taken: 0,
            bytes: 0,
        })
    }

    // The queue of which so many bytes of the first frame were taken, and so many bytes wait.
    pub(crate) fn of(frames: FrameRun, taken: usize, bytes: usize) -> OutQueue
        requires { CanStand taken bytes frames }
        ensures { result ≡ left_of taken frames }
    {
        OutQueue {
            frames,
            taken,
            bytes,
        }
    }

    /// Opens the queue, so that bytes may be written behind its frames. No memory is taken.
    pub fn open(self) -> OpenQueue
        ensures open { IsOpen result }
        ensures frames { frames_of result ≡ self }
        ensures tail { tail_of result ≡ [] }
    {
        let OutQueue {
            frames,
            taken,
            bytes,
        } = self;
        let (run, lens, gone) = frames.into_parts();
        OpenQueue {
            bytes: Octets::from_vec(run),
            lens,
            gone,
            taken,
            queued: bytes,
        }
    }

    /// Puts a frame behind the others, unless more than 4,194,304 bytes would wait.
    #[inline(always)]
    pub fn push(&mut self, _alloc: Global, frame: &[u8]) -> Result<Pushed, NoMemory>
        ensures over { IfOk result (λ pushed. (pushed ≡ Pushed.Over)
            ↔ (QUEUE_LIMIT < queued self.old + length frame.now)) }
        ensures done { result ≡ Ok Pushed.Done → self.new ≡ self.old ++ frame.now ∷ [] }
        ensures unchanged { result ≡ Ok Pushed.Over → self.new ≡ self.old }
        ensures no_memory { OnErr result (self.new ≡ self.old) }
    {
        if frame.len() > MAX_QUEUED - self.bytes {
            return Ok(Pushed::Over);
        }
        self.frames.push(frame)?;
        self.bytes += frame.len();
        Ok(Pushed::Done)
    }

    /// The same for a frame in two parts, which come together where it waits.
    #[inline(always)]
    pub fn push_parts(
        &mut self,
        _alloc: Global,
        front: &[u8],
        rest: &[u8],
    ) -> Result<Pushed, NoMemory>
        ensures over { IfOk result (λ pushed. (pushed ≡ Pushed.Over)
            ↔ (QUEUE_LIMIT < queued self.old + length (front.now ++ rest.now))) }
        ensures done { result ≡ Ok Pushed.Done → self.new ≡ self.old ++ (front.now ++ rest.now) ∷ [] }
        ensures unchanged { result ≡ Ok Pushed.Over → self.new ≡ self.old }
        ensures no_memory { OnErr result (self.new ≡ self.old) }
    {
        let len = front.len() + rest.len();
        if len > MAX_QUEUED - self.bytes {
            return Ok(Pushed::Over);
        }
        self.frames.push_parts(front, rest)?;
        self.bytes += len;
        Ok(Pushed::Done)
    }

    /// What is left of the first frame.
    pub fn front(&self) -> Option<&[u8]>
        ensures empty { IsNone result ↔ (self.now ≡ []) }
        ensures first { IfSome result (λ left. front_of self.now ≡ Some left.now) }
        ensures bound { IfSome result (λ left. length left.now ≤ QUEUE_LIMIT) }
    {
        let frame = self.frames.front()?;
        Some(&frame[self.taken..])
    }

    /// All that waits, one frame behind another.
    pub fn run(&self) -> Option<&[u8]>
        ensures empty { IsNone result ↔ (self.now ≡ []) }
        ensures all { IfSome result (λ run. concat self.now ≡ run.now) }
        ensures bound { IfSome result (λ run. length run.now ≤ QUEUE_LIMIT) }
    {
        let _ = self.frames.front()?;
        Some(&self.frames.all()[self.taken..])
    }

    /// All that waits was taken.
    pub fn clear(&mut self)
        ensures { self.new ≡ [] }
    {
        self.frames.clear();
        self.taken = 0;
        self.bytes = 0;
    }

    /// Takes bytes of the first frame, which is gone once it is taken whole. No other byte moves.
    pub fn took(&mut self, n: u32)
        requires { FitsFront n self.old }
        ensures left { self.new ≡ frames_after n self.old }
        ensures less { queued self.new + n ≡ queued self.old }
        ensures bytes { concat self.new ≡ drop n (concat self.old) }
    {
        let Some(frame) = self.frames.front() else {
            return;
        };
        let n = n as usize;
        let left = frame.len() - self.taken;
        self.bytes -= n;
        if left == n {
            self.frames.pop();
            self.taken = 0;
        } else {
            self.taken += n;
        }
    }
}

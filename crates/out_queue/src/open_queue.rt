//! A queue whose bytes are lent, so that a frame is written where it waits.

ghost use Rattle.std.specs.Prelude.{◌≡◌, ◌+◌, ◌<◌, ◌↔◌, [], ◌∷◌, ◌++◌, length, OnErr, Ok, IfOk};
ghost use Rattle.out_queue.specs.Queue.{QUEUE_LIMIT, queued};
ghost use Rattle.out_queue.specs.Open.{IsOpen, frames_of, tail_of};

use crate::frame_run::FrameRun;
use crate::lens::Lens;
use crate::out_queue::{MAX_QUEUED, OutQueue, Pushed};
use ads_base::{NoMemory, Octets};

/// A queue that is open: bytes may be written behind its frames.
#[derive(Drop)]
pub struct OpenQueue {
    /// The frames, behind bytes that are gone, and what is written behind them.
    pub bytes: Octets,
    // How long each of the frames is.
    pub(crate) lens: Lens,
    // How many bytes are gone.
    pub(crate) gone: usize,
    // How many bytes of the first frame were taken.
    pub(crate) taken: usize,
    // How many bytes wait.
    pub(crate) queued: usize,
}

impl OpenQueue {
    /// What is written behind the frames waits as a frame, unless more than 4,194,304 bytes would wait: then it is cut away.
    pub fn admit(&mut self) -> Result<Pushed, NoMemory>
        requires { IsOpen self.old }
        ensures over { IfOk result (λ pushed. (pushed ≡ Pushed.Over)
            ↔ (QUEUE_LIMIT < queued (frames_of self.old) + length (tail_of self.old))) }
        ensures done { result ≡ Ok Pushed.Done → frames_of self.new ≡ frames_of self.old ++ tail_of self.old ∷ [] }
        ensures unchanged { result ≡ Ok Pushed.Over → frames_of self.new ≡ frames_of self.old }
        ensures no_memory { OnErr result (frames_of self.new ≡ frames_of self.old) }
        ensures open { IsOpen self.new }
        ensures tail { tail_of self.new ≡ [] }
    {
        let all = self.bytes.len();
        let end = self.gone + self.taken + self.queued;
        let len = all - end;
        if len > MAX_QUEUED - self.queued {
            self.bytes.cut(end);
            return Ok(Pushed::Over);
        }
        match self.lens.push(len as u32) {
            Ok(()) => {
                self.queued += len;
                Ok(Pushed::Done)
            }
            Err(NoMemory) => {
                self.bytes.cut(end);
                Err(NoMemory)
            }
        }
    }

    /// Closes the queue. No memory is taken.
    pub fn close(self) -> OutQueue
        requires open { IsOpen self }
        requires tail { tail_of self ≡ [] }
        ensures { result ≡ frames_of self }
    {
        let OpenQueue {
            bytes,
            lens,
            gone,
            taken,
            queued,
        } = self;
        OutQueue::of(FrameRun::of(bytes.into_vec(), lens, gone), taken, queued)
    }
}

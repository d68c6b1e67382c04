//! What waits for one connection.

ghost use Rattle.std.specs.Prelude.{◌≡◌, ◌≤◌, [], ◌++◌, length, is_some, IfOk, IfSome, OnOk, OnErr, option_copied, option_map};
ghost use Rattle.std.specs.List.{concat};
ghost use Rattle.out_queue.specs.Queue.{QUEUE_LIMIT};
ghost use Rattle.connections.specs.Offering.{FitsFirst};

use ads_base::NoMemory;
use out_queue::{OutQueue, Pushed};
use std::alloc::Global;
use std::mem;

/// The frames that wait for a connection, and whether it is to be shut or blocked.
#[derive(Drop)]
pub struct Outlet {
    pub(crate) out: OutQueue,
    // It is to be shut: nothing more waits for it.
    pub(crate) closing: bool,
    // Its last offer was not taken whole, and it was not writable since.
    pub(crate) blocked: bool,
}

impl Outlet {
    ghost use Rattle.connections.specs.Outlets.{fresh_outlet, taken, emptied, freed, closed, with_nothing, holding};
    ghost use Rattle.connections.specs.Outlets.{given, is_fitting, offer_of_outlet, run_of_outlet, is_due_outlet};

    /// Nothing waits.
    pub(crate) fn fresh(alloc: Global) -> Result<Outlet, NoMemory>
        ensures { IfOk result (λ outlet. outlet ≡ fresh_outlet) }
    {
        Ok(Outlet {
            out: OutQueue::new(alloc)?,
            closing: false,
            blocked: false,
        })
    }

    /// What is left of the first frame, unless it is blocked.
    #[inline(always)]
    pub(crate) fn offer(&self) -> Option<&[u8]>
        ensures offer { option_copied result ≡ offer_of_outlet self.now }
        ensures bound { IfSome result (λ left. length left.now ≤ QUEUE_LIMIT) }
    {
        if self.blocked { None } else { self.out.front() }
    }

    /// Bytes of the first frame were taken.
    #[inline(always)]
    pub(crate) fn took(&mut self, n: u32)
        requires { FitsFirst n self.old.out }
        ensures { self.new ≡ taken n self.old }
    {
        let Some(left) = self.out.front() else {
            return;
        };
        let short = (n as usize) < left.len();
        self.out.took(n);
        self.blocked = short;
    }

    /// All frames, one behind another, unless it is blocked.
    #[inline(always)]
    pub(crate) fn run(&self) -> Option<&[u8]>
        ensures run { option_copied result ≡ option_map concat (run_of_outlet self.now) }
        ensures bound { IfSome result (λ run. length run.now ≤ QUEUE_LIMIT) }
    {
        if self.blocked {
            return None;
        }
        self.out.run()
    }

    /// All frames were taken whole.
    #[inline(always)]
    pub(crate) fn took_run(&mut self)
        ensures { self.new ≡ emptied self.old }
    {
        self.out.clear();
        self.free();
    }

    /// It is writable again.
    pub(crate) fn free(&mut self)
        ensures { self.new ≡ freed self.old }
    {
        self.blocked = false;
    }

    /// Its queue goes out, and nothing waits meanwhile.
    #[inline(always)]
    pub(crate) fn lend(&mut self, none: OutQueue) -> OutQueue
        requires { none ≡ [] }
        ensures out { result ≡ self.old.out }
        ensures rest { self.new ≡ with_nothing self.old }
    {
        mem::replace(&mut self.out, none)
    }

    /// Its queue comes back, and it closes where that was told.
    #[inline(always)]
    pub(crate) fn take_back(&mut self, out: OutQueue, closes: bool)
        ensures { self.new ≡ holding out closes self.old }
    {
        self.out = out;
        self.closing = self.closing || closes;
    }

    /// It is to be shut.
    pub(crate) fn close(&mut self)
        ensures { self.new ≡ closed self.old }
    {
        self.closing = true;
    }

    /// Whether something is offered, or it is to be shut.
    #[inline(always)]
    pub(crate) fn is_due(&self) -> bool
        ensures { result ≡ is_due_outlet self.now }
    {
        self.is_offered() || self.closing
    }

    // Whether something is offered: a frame waits, and it is not blocked.
    #[inline(always)]
    fn is_offered(&self) -> bool
        ensures { result ≡ is_some (offer_of_outlet self.now) }
    {
        !self.blocked && self.out.front().is_some()
    }

    /// A frame waits behind the others; one that has no room closes the connection. Whether it waits.
    #[inline(always)]
    pub(crate) fn give(&mut self, alloc: Global, frame: &[u8]) -> Result<bool, NoMemory>
        ensures given { OnOk result (self.new ≡ given frame.now self.old) }
        ensures fitted { IfOk result (λ fitted. fitted ≡ is_fitting frame.now self.old) }
        ensures no_memory { OnErr result (self.new ≡ self.old) }
    {
        if self.closing {
            return Ok(false);
        }
        match self.out.push(alloc, frame)? {
            Pushed::Done => Ok(true),
            Pushed::Over => {
                self.close();
                Ok(false)
            }
        }
    }

    /// The same for a frame in two parts, which come together where it waits.
    #[inline(always)]
    pub(crate) fn give_parts(
        &mut self,
        alloc: Global,
        front: &[u8],
        rest: &[u8],
    ) -> Result<bool, NoMemory>
        ensures given { OnOk result (self.new ≡ given (front.now ++ rest.now) self.old) }
        ensures fitted { IfOk result (λ fitted. fitted ≡ is_fitting (front.now ++ rest.now) self.old) }
        ensures no_memory { OnErr result (self.new ≡ self.old) }
    {
        if self.closing {
            return Ok(false);
        }
        match self.out.push_parts(alloc, front, rest)? {
            Pushed::Done => Ok(true),
            Pushed::Over => {
                self.close();
                Ok(false)
            }
        }
    }
}

//! Frames are given to connections, which close where one does not fit.

ghost use Rattle.std.specs.Prelude.{◌≡◌, ◌++◌, IfOk, OnErr, OnOk};
ghost use Rattle.out_queue.specs.Open.{frames_of};
ghost use Rattle.connections.specs.Clear.{IsClear};
ghost use Rattle.connections.specs.Outlets.{change_at, closed, closing_at, frames_in, given, holding, is_fitting, outlet_at, test_in, with_nothing};

use crate::outlets::Outlets;
use ads_base::NoMemory;
use out_queue::{OpenQueue, OutQueue};
use std::alloc::Global;

impl Outlets {
    /// Whether the connection at a place is to be shut.
    pub fn is_closing(&self, i: usize) -> bool
        ensures { result ≡ closing_at self.now i }
    {
        match self.entries.get_index(i) {
            Some((_, outlet)) => outlet.closing,
            None => false,
        }
    }

    /// The connection at a place is to be shut.
    pub fn close(&mut self, i: usize)
        ensures { self.new ≡ change_at closed i self.old }
    {
        if i < self.entries.len() {
            self.touched = self.touched.with(i);
            let outlet = &mut self.entries[i];
            outlet.close();
        }
    }

    /// A frame waits behind the others for the connection at a place. One that has no room closes it, and one that is closing
    /// takes none. Whether the frame waits.
    #[inline(always)]
    pub fn give(&mut self, alloc: Global, i: usize, frame: &[u8]) -> Result<bool, NoMemory>
        ensures given { OnOk result (self.new ≡ change_at (given frame.now) i self.old) }
        ensures fitted { IfOk result (λ fitted. fitted ≡ test_in (is_fitting frame.now) (outlet_at self.old i)) }
        ensures no_memory { OnErr result (self.new ≡ self.old) }
    {
        if i >= self.entries.len() {
            return Ok(false);
        }
        self.touched = self.touched.with(i);
        let outlet = &mut self.entries[i];
        outlet.give(alloc, frame)
    }

    /// The same for a frame in two parts, which come together where it waits.
    #[inline(always)]
    pub fn give_parts(
        &mut self,
        alloc: Global,
        i: usize,
        front: &[u8],
        rest: &[u8],
    ) -> Result<bool, NoMemory>
        ensures given { OnOk result (self.new ≡ change_at (given (front.now ++ rest.now)) i self.old) }
        ensures fitted { IfOk result (λ fitted. fitted ≡ test_in (is_fitting (front.now ++ rest.now)) (outlet_at self.old i)) }
        ensures no_memory { OnErr result (self.new ≡ self.old) }
    {
        if i >= self.entries.len() {
            return Ok(false);
        }
        self.touched = self.touched.with(i);
        let outlet = &mut self.entries[i];
        outlet.give_parts(alloc, front, rest)
    }

    /// The queue of the connection at a place goes out open, for the length of a piece; meanwhile nothing waits for it.
    #[inline(always)]
    pub fn open_queue(&mut self, alloc: Global, i: usize) -> Result<OpenQueue, NoMemory>
        ensures clear { IfOk result IsClear }
        ensures frames { IfOk result (λ queue. frames_of queue ≡ frames_in (outlet_at self.old i)) }
        ensures rest { OnOk result (self.new ≡ change_at with_nothing i self.old) }
        ensures no_memory { OnErr result (self.new ≡ self.old) }
    {
        let none = OutQueue::new(alloc)?;
        if i >= self.entries.len() {
            return Ok(none.open());
        }
        self.touched = self.touched.with(i);
        let outlet = &mut self.entries[i];
        Ok(outlet.lend(none).open())
    }

    /// It comes back, and the connection closes where that was told.
    #[inline(always)]
    pub fn close_queue(&mut self, i: usize, queue: OpenQueue, closes: bool)
        requires { IsClear queue }
        ensures { self.new ≡ change_at (holding (frames_of queue) closes) i self.old }
    {
        if i < self.entries.len() {
            self.touched = self.touched.with(i);
            let outlet = &mut self.entries[i];
            outlet.take_back(queue.close(), closes);
        }
    }
}

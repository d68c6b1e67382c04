//! What is offered to connections, and what of it was taken.

ghost use Rattle.std.specs.Prelude.{◌≡◌, ◌<◌, ◌≤◌, length, IfSome, IsSomeAnd, option_copied, option_map};
ghost use Rattle.std.specs.List.{concat};
ghost use Rattle.out_queue.specs.Queue.{QUEUE_LIMIT};
ghost use Rattle.connections.specs.Outlets.{taken, emptied, freed, change_of, offer_among, run_among, offers_among, closing_among};

use crate::outlets::Outlets;

impl Outlets {
    /// What is left of the first frame that waits for a connection, unless it is blocked.
    pub fn offer_of(&self, number: u32) -> Option<&[u8]>
        ensures offer { option_copied result ≡ offer_among self.now number }
        ensures bound { IfSome result (λ left. length left.now ≤ QUEUE_LIMIT) }
    {
        let i = self.place_of(number)?;
        let outlet = &self.entries[i];
        outlet.offer()
    }

    /// The first n bytes of what was offered to a connection were taken.
    pub fn took(&mut self, number: u32, n: u32)
        requires { IsSomeAnd (offer_among self.old number) (λ left. n ≤ length left) }
        ensures taken { self.new ≡ change_of (taken n) number self.old }
        ensures fewer { offers_among self.new number < offers_among self.old number }
    {
        if let Some(i) = self.place_of(number) {
            self.touched = self.touched.with(i);
            let outlet = &mut self.entries[i];
            outlet.took(n);
        }
    }

    /// All frames that wait for a connection, one behind another, unless it is blocked.
    pub fn run_of(&self, number: u32) -> Option<&[u8]>
        ensures run { option_copied result ≡ option_map concat (run_among self.now number) }
        ensures bound { IfSome result (λ run. length run.now ≤ QUEUE_LIMIT) }
    {
        let i = self.place_of(number)?;
        let outlet = &self.entries[i];
        outlet.run()
    }

    /// All frames that waited for a connection were taken whole.
    pub fn took_run(&mut self, number: u32)
        ensures { self.new ≡ change_of emptied number self.old }
    {
        if let Some(i) = self.place_of(number) {
            self.touched = self.touched.with(i);
            let outlet = &mut self.entries[i];
            outlet.took_run();
        }
    }

    /// A connection is writable.
    pub fn free(&mut self, number: u32)
        ensures { self.new ≡ change_of freed number self.old }
    {
        if let Some(i) = self.place_of(number) {
            self.touched = self.touched.with(i);
            let outlet = &mut self.entries[i];
            outlet.free();
        }
    }

    /// Whether a connection that is there is to be shut.
    pub fn is_to_be_shut(&self, number: u32) -> bool
        ensures { result ≡ closing_among self.now number }
    {
        match self.place_of(number) {
            Some(i) => {
                let outlet = &self.entries[i];
                outlet.closing
            }
            None => false,
        }
    }
}

//! Lines that wait for an outlet, at most so many bytes of them.

ghost use Rattle.std.specs.Prelude.{◌≡◌, ◌⊎◌, ◌+◌, ◌<◌, ◌≤◌, ◌∷◌, [], ◌++◌, List, ℕ, length, take, drop};
ghost use Rattle.daemon_outside.specs.Outlet.{TakesFirst};
ghost use Rattle.daemon_log.specs.Lines.{IsLog};
ghost use Rattle.ads_outside.specs.Rose.{raised};

use daemon_outside::LogOutlet;
use std::alloc::Global;
use std::marker::Model;

/// The greatest number of bytes that wait.
pub const MOST_WAITING: usize = 65_536;

/// The greatest number of bytes that are given to an outlet at once.
pub const MOST_GIVEN: usize = 4_096;

/// Lines in order. A line for which there is no room is lost whole, and counted.
#[derive(Drop)]
pub struct Ring {
    // The lines, behind bytes that were given to the outlet.
    bytes: Vec<u8>,
    given: usize,
    lost: u64,
}

impl Model for Ring {
    ghost use Rattle.std.specs.Prelude.{◌≤◌, drop, length};
    ghost use Rattle.daemon_log.specs.Lines.{HeldLines};

    ghost Value = { HeldLines };

    ghost view = { λ r. record { waits = drop r.given r.bytes.items; lost = r.lost } };

    ghost invariant = { λ r. (r.given ≤ length r.bytes.items) × (length r.bytes.items ≤ 65536) };
}

impl Ring {
    /// No line was told.
    pub fn new(alloc: Global) -> Ring
        ensures empty { result ≡ record { waits = []; lost = 0 } }
        ensures log { IsLog [] [] result }
    {
        Ring {
            bytes: Vec::new(alloc),
            given: 0,
            lost: 0,
        }
    }

    /// How many lines were lost.
    pub fn lost(&self) -> u64
        ensures { result ≡ self.now.lost }
    {
        self.lost
    }

    /// How many bytes wait.
    pub fn waiting(&self) -> usize
        ensures { result ≡ length self.now.waits }
    {
        self.bytes.len() - self.given
    }

    /// A line is told: it waits behind the others, or is lost, since there is no room or no memory for it.
    pub fn put(&mut self, line: &[u8])
        ensures kept { (self.new ≡ record self.old { waits = self.old.waits ++ line.now }) ⊎ (self.new ≡ record self.old { lost = raised self.old.lost }) }
        ensures log { (told : List (List ℕ)) (given : List ℕ) → IsLog told given self.old → IsLog (told ++ line.now ∷ []) given self.new }
    {
        self.keep(line);
    }

    /// A line is lost that there was no memory for.
    pub fn lose(&mut self)
        ensures { self.new ≡ record self.old { lost = raised self.old.lost } }
    {
        self.lost = self.lost.saturating_add(1);
    }

    /// Gives as many first bytes as an outlet takes now, at most 4,096, and tells how many.
    pub fn flush<O: LogOutlet>(&mut self, outlet: &mut O) -> u32
        ensures few { result ≤ 4096 }
        ensures waits { self.new ≡ record self.old { waits = drop result self.old.waits } }
        ensures takes { TakesFirst result (O.held outlet.old) (O.held outlet.new) self.old.waits }
        ensures log { (told : List (List ℕ)) (given : List ℕ) → IsLog told given self.old → IsLog told (given ++ take result self.old.waits) self.new }
    {
        self.give(outlet)
    }

    // The line waits, or is lost.
    fn keep(&mut self, line: &[u8])
        ensures { (self.new ≡ record self.old { waits = self.old.waits ++ line.now }) ⊎ (self.new ≡ record self.old { lost = raised self.old.lost }) }
    {
        self.move_up();
        if line.len() > MOST_WAITING - self.bytes.len()
            || self.bytes.extend_from_slice(line).is_err()
        {
            self.lose();
        }
    }

    // As many first bytes as the outlet takes are given.
    fn give<O: LogOutlet>(&mut self, outlet: &mut O) -> u32
        ensures few { result ≤ 4096 }
        ensures waits { self.new ≡ record self.old { waits = drop result self.old.waits } }
        ensures takes { TakesFirst result (O.held outlet.old) (O.held outlet.new) self.old.waits }
    {
        let waiting = self.waiting();
        if waiting == 0 {
            return 0;
        }
        let end = self.given + waiting.min(MOST_GIVEN);
        let taken = outlet.take(&self.bytes.as_slice()[self.given..end]);
        self.given += taken as usize;
        taken
    }

    // Moves what waits over what was given.
    fn move_up(&mut self)
        ensures { self.new ≡ self.old }
    {
        if self.given > 0 {
            let left = self.bytes.len() - self.given;
            self.bytes.copy_within(self.given.., 0);
            self.bytes.truncate(left);
            self.given = 0;
        }
    }
}

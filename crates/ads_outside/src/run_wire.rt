//! A wire in memory that takes runs.

ghost use Rattle.std.specs.Prelude.{◌≡◌, ◌≤◌, ◌<◌, ◌^◌, IsTrue, length};
ghost use Rattle.ads_outside.specs.MemWire.{after_run, state_of_runs, takes_all};
ghost use Rattle.ads_outside.specs.WireAnswers.{Gives, Shuts, Starts, Takes, TakesRun};

use crate::{Log, MemWire, Next, Offer, Shut, Started, Wire};

/// The wire in memory inside, which takes a run whole where each offer is taken whole from here on and no call fails. It tells the
/// bytes that each connection took, and not in which pieces.
#[derive(Drop)]
pub struct RunWire {
    wire: MemWire,
}

impl RunWire {
    /// The same wire, which takes runs.
    pub fn new(wire: MemWire) -> Self
        ensures { result.wire ≡ wire }
    {
        RunWire { wire }
    }

    /// What happened, in order; a run stands in it as one offer.
    pub fn log(&self) -> &Log
        ensures { result.now ≡ self.now.wire.log }
    {
        self.wire.log()
    }
}

impl Wire for RunWire {
    ghost use Rattle.std.specs.Prelude.{List};
    ghost use Rattle.ads_outside.specs.declared.event.Event.{Event as EventOf};

    ghost state = { λ w. state_of_runs w.wire };

    ghost Kept = { List EventOf };

    ghost kept = { λ w. w.wire.events };

    fn faults(&self) -> u64 {
        self.wire.faults()
    }

    fn stops(&self) -> u64 {
        self.wire.stops()
    }

    #[tactic(auto, using(crate::proofs::UnloggedLemmas::starts_unlogged))]
    fn start(&mut self, listen: &str, name: &str, first: &[u8]) -> Started {
        self.wire.start(listen, name, first)
    }

    #[tactic(auto, using(crate::proofs::UnloggedLemmas::gives_unlogged))]
    fn next(&mut self) -> Next {
        self.wire.next()
    }

    #[tactic(auto, using(crate::proofs::UnloggedLemmas::takes_unlogged))]
    fn offer(&mut self, conn: u32, bytes: &[u8]) -> Offer {
        self.wire.offer(conn, bytes)
    }

    #[tactic(auto, using(crate::proofs::UnloggedLemmas::takes_run_held))]
    fn offer_run(&mut self, conn: u32, run: &[u8]) -> bool
        requires { length run.now < 2 ^ 32 }
        ensures takes { TakesRun result (state_of_runs self.old.wire) (state_of_runs self.new.wire) conn run.now }
        ensures kept { self.new.wire.events ≡ self.old.wire.events }
        ensures later { self.old.wire.failing.faults ≤ self.new.wire.failing.faults }
        ensures wanted { self.old.wire.wants ≤ self.new.wire.wants }
        ensures all { IsTrue result → IsTrue (takes_all self.old.wire) }
        ensures logged { self.new.wire ≡ after_run result self.old.wire conn run.now }
    {
        self.wire.take_run(conn, run)
    }

    #[tactic(auto, using(crate::proofs::UnloggedLemmas::shuts_unlogged))]
    fn shut(&mut self, conn: u32) -> Shut {
        self.wire.shut(conn)
    }
}

//! The wire of a case, which is tried in two ways.

use ads_outside::{Log, MemWire, Next, Offer, RunWire, Shut, Started, Wire};

/// The wire in memory of a case: one that takes each frame by itself and tells its log, or one that takes frames in runs. Both are
/// one type, so that a program is built over it once.
#[derive(Drop)]
pub enum CaseWire {
    ByFrames(MemWire),
    ByRuns(RunWire),
}

impl CaseWire {
    /// The wire, which takes runs or not.
    pub fn new(wire: MemWire, takes_runs: bool) -> CaseWire {
        if takes_runs {
            return CaseWire::ByRuns(RunWire::new(wire));
        }
        CaseWire::ByFrames(wire)
    }

    /// What happened, in order; a run stands in it as one offer.
    pub fn log(&self) -> &Log {
        match self {
            CaseWire::ByFrames(wire) => wire.log(),
            CaseWire::ByRuns(wire) => wire.log(),
        }
    }
}

impl Wire for CaseWire {
    ghost use Rattle.std.specs.Prelude.{List};
    ghost use Rattle.ads_outside.specs.declared.event.Event.{Event as EventOf};
    ghost use Rattle.run_sheets.specs.TwoWires.{events_of, told_of};

    ghost state = { told_of };

    ghost Kept = { List EventOf };

    ghost kept = { events_of };

    fn faults(&self) -> u64 {
        match self {
            CaseWire::ByFrames(wire) => wire.faults(),
            CaseWire::ByRuns(wire) => wire.faults(),
        }
    }

    fn stops(&self) -> u64 {
        match self {
            CaseWire::ByFrames(wire) => wire.stops(),
            CaseWire::ByRuns(wire) => wire.stops(),
        }
    }

    fn start(&mut self, listen: &str, name: &str, first: &[u8]) -> Started {
        match self {
            CaseWire::ByFrames(wire) => wire.start(listen, name, first),
            CaseWire::ByRuns(wire) => wire.start(listen, name, first),
        }
    }

    fn next(&mut self) -> Next {
        match self {
            CaseWire::ByFrames(wire) => wire.next(),
            CaseWire::ByRuns(wire) => wire.next(),
        }
    }

    fn offer(&mut self, conn: u32, bytes: &[u8]) -> Offer {
        match self {
            CaseWire::ByFrames(wire) => wire.offer(conn, bytes),
            CaseWire::ByRuns(wire) => wire.offer(conn, bytes),
        }
    }

    fn offer_run(&mut self, conn: u32, run: &[u8]) -> bool {
        match self {
            CaseWire::ByFrames(wire) => wire.offer_run(conn, run),
            CaseWire::ByRuns(wire) => wire.offer_run(conn, run),
        }
    }

    fn shut(&mut self, conn: u32) -> Shut {
        match self {
            CaseWire::ByFrames(wire) => wire.shut(conn),
            CaseWire::ByRuns(wire) => wire.shut(conn),
        }
    }
}

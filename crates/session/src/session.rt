//! The session of one client.

ghost use Rattle.std.specs.Prelude.{◌≡◌, ◌+◌, ◌<◌, length, IfOk, OnOk, OnErr};
ghost use Rattle.spec_plant.specs.World.{Plant};
ghost use Rattle.spec_machine.specs.Client.{new_client};
ghost use Rattle.ams_tcp.specs.History.{History, Represents, nothing_fed, after_feed, answer_of, after_next, IsFrameCut, HoldsPacket};

use ads_base::NoMemory;
use ams_tcp::{Cut, Splitter};
use notify_table::Watches;
use std::alloc::Global;
use std::marker::Model;
use sym_handles::Handles;

/// What is kept for one client: the rest of its stream, its symbol handles and its notifications. Which client of the
/// machine it stands for is said over a plant (`StandsFor`).
#[derive(Drop)]
pub struct Session {
    pub(crate) splitter: Splitter,
    pub(crate) handles: Handles,
    pub(crate) watches: Watches,
}

impl Model for Session {
    ghost use Rattle.session.specs.SessionState.{SessionState};

    ghost Value = { SessionState };

    ghost view = { λ s. record { stream = s.splitter; handles = s.handles; watches = s.watches } };
}

impl Session {
    ghost use Rattle.session.specs.StandsFor.{StandsFor};

    /// The session of a client that was not heard yet.
    pub fn new(alloc: Global) -> Result<Session, NoMemory>
        ensures stands { IfOk result (λ session. (plant : Plant) → StandsFor plant new_client session) }
        ensures nothing { IfOk result (λ session. Represents session.stream nothing_fed) }
        ensures passed { IfOk result (λ session. session.stream.passed ≡ 0) }
    {
        Ok(Session {
            splitter: Splitter::new(alloc)?,
            handles: Handles::new(alloc)?,
            watches: Watches::new(alloc)?,
        })
    }

    /// Appends a piece to the stream of the client.
    pub fn feed(&mut self, alloc: Global, piece: &[u8]) -> Result<(), NoMemory>
        ensures ok { OnOk result ((h : History) → Represents self.old.stream h
            → Represents self.new.stream (after_feed h piece.now)) }
        ensures passed { self.new.stream.passed ≡ 0 }
        ensures keeps { self.new ≡ record self.old { stream = self.new.stream } }
        ensures no_memory { OnErr result (self.new.stream ≡ let held = self.old.stream in record held { passed = 0 }) }
    {
        self.splitter.feed(alloc, piece)
    }

    /// The next frame of the stream; NotYet where what is left is open, Broken where it is broken, from then on.
    pub fn next(&mut self, alloc: Global) -> Result<Cut, NoMemory>
        ensures answer { IfOk result (λ cut. (h : History) → Represents self.old.stream h → cut ≡ answer_of h) }
        ensures stands { OnOk result ((h : History) → Represents self.old.stream h
            → Represents self.new.stream (after_next h)) }
        ensures packet { IfOk result HoldsPacket }
        ensures shorter { IfOk result (λ cut. IsFrameCut cut
            → length self.new.stream.rest < length self.old.stream.rest) }
        ensures passed { self.new.stream.passed + length self.new.stream.rest
            ≡ self.old.stream.passed + length self.old.stream.rest }
        ensures keeps { self.new ≡ record self.old { stream = self.new.stream } }
        ensures no_memory { OnErr result (self.new ≡ self.old) }
    {
        self.splitter.next(alloc)
    }
}

//! The relay as what a loop serves.

ghost use Rattle.std.specs.Prelude.{◌≡◌, OnOk};
ghost use Rattle.spec_machine.specs.Running.{OpensNew};
ghost use Rattle.ams_relay.specs.Relays.{RelayRunning, StandsRunning, running_after_event};

use crate::Relay;
use ads_base::{NoMemory, Octets};
use ads_outside::Event;
use ads_served::Served;
use std::alloc::Global;
use std::thread::Threads;

// The body text without entries: how many there are, in four bytes.
const NO_ENTRIES: [u8; 4] = [0; 4];

impl Served for Relay {
    ghost use Rattle.spec_relay.specs.RelayState.{RelayWorld, Owned};
    ghost use Rattle.spec_relay.specs.RelayMoves.{relay_after_event};
    ghost use Rattle.ams_relay.specs.Relays.{StandsAt, HasFailed, nothing_kept, ComesToNothing, nothing_noted, offer_in, run_in, offers_in};
    ghost use Rattle.spec_relay.proofs.OpenedAlone.{relay_opens_alone};

    type Came = ();

    ghost World = { RelayWorld };

    ghost Client = { Owned };

    ghost steps = { relay_after_event };

    ghost body_of = { nothing_kept };

    ghost comes_to = { ComesToNothing };

    ghost noted = { nothing_noted };

    ghost serves = { StandsAt };

    ghost offer_in = { offer_in };

    ghost run_in = { run_in };

    ghost offers_left = { offers_in };

    ghost has_failed = { HasFailed };

    fn step<T: Threads + Sync>(
        &mut self,
        _rt: &T,
        alloc: Global,
        event: &Event,
    ) -> Result<(), NoMemory> {
        if self.failed {
            return Err(NoMemory);
        }
        match self.take_event(alloc, event) {
            Ok(()) => Ok(()),
            Err(NoMemory) => {
                self.failed = true;
                Err(NoMemory)
            }
        }
    }

    fn due(&mut self, alloc: Global, numbers: &mut Vec<u32>) -> Result<(), NoMemory> {
        match self.router.outlets.due(alloc, numbers) {
            Ok(()) => Ok(()),
            Err(NoMemory) => {
                self.failed = true;
                Err(NoMemory)
            }
        }
    }

    fn offer_of(&self, conn: u32) -> Option<&[u8]> {
        self.router.outlets.offer_of(conn)
    }

    fn took(&mut self, conn: u32, n: u32) {
        self.router.outlets.took(conn, n);
    }

    fn run_of(&self, conn: u32) -> Option<&[u8]> {
        self.router.outlets.run_of(conn)
    }

    fn took_run(&mut self, conn: u32) {
        self.router.outlets.took_run(conn);
    }

    fn closing(&self, conn: u32) -> bool {
        self.router.outlets.is_to_be_shut(conn)
    }

    fn remove(&mut self, conn: u32) {
        self.end(conn);
    }

    fn body(&self, alloc: Global) -> Result<Octets, NoMemory> {
        Octets::copy_of(alloc, &NO_ENTRIES)
    }

    fn is_body(&self, _alloc: Global, text: &[u8]) -> Result<bool, NoMemory> {
        Ok(text == NO_ENTRIES.as_slice())
    }

    ghost apart = { λ m x s. s.holds.outlets.apart };

    ghost opens_alone = { relay_opens_alone };
}

impl Relay {
    // An event is taken. A tick and a reload change nothing. First those are forgotten that were touched and are idle by now:
    // an event costs what it touches, and not what was served before it.
    fn take_event(&mut self, alloc: Global, event: &Event) -> Result<(), NoMemory>
        ensures follows { OnOk result ((x : RelayRunning) → StandsRunning self.old x → OpensNew x event.now
            → StandsRunning self.new (running_after_event x event.now)) }
        ensures failed { self.new.failed ≡ self.old.failed }
    {
        self.router.outlets.settle();
        match event {
            Event::Opened(number) => self.open(alloc, *number),
            Event::Piece(number, bytes) => self.piece(alloc, *number, bytes.as_slice()),
            Event::Closed(number) => {
                self.end(*number);
                Ok(())
            }
            Event::Writable(number) => {
                self.router.outlets.free(*number);
                Ok(())
            }
            Event::Tick(_) => Ok(()),
            Event::Reload(_) => Ok(()),
        }
    }
}

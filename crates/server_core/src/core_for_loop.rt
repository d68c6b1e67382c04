//! The core as what a loop serves.

use crate::sources::Sources;
use crate::{Core, Outcome};
use ads_base::{NoMemory, Octets};
use ads_outside::Event;
use ads_served::Served;
use std::alloc::Global;
use std::thread::Threads;

impl<S: Sources> Served for Core<S> {
    ghost use Rattle.spec_machine.specs.RunText.{notes_of_event};
    ghost use Rattle.spec_persistent.specs.Persistent.{body_of_world};
    ghost use Rattle.ads_served.proofs.DeviceEvents.{events_open_alone};
    ghost use Rattle.server_core.specs.Outcomes.{ComesTo};
    ghost use Rattle.server_core.specs.Served as device;
    ghost use Rattle.server_core.specs.Serves.{StandsAt, HasFailed, offer_in, run_in, offers_in};

    type Came = Outcome;

    ghost World = { device.World };

    ghost Client = { device.Client };

    ghost steps = { device.served_step };

    ghost body_of = { body_of_world };

    ghost comes_to = { ComesTo };

    ghost noted = { notes_of_event device.served };

    ghost serves = { StandsAt };

    ghost offer_in = { offer_in };

    ghost run_in = { run_in };

    ghost offers_left = { offers_in };

    ghost has_failed = { HasFailed };

    fn step<T: Threads + Sync>(
        &mut self,
        rt: &T,
        alloc: Global,
        event: &Event,
    ) -> Result<Outcome, NoMemory> {
        self.step(rt, alloc, event)
    }

    fn due(&mut self, alloc: Global, numbers: &mut Vec<u32>) -> Result<(), NoMemory> {
        self.due(alloc, numbers)
    }

    fn offer_of(&self, conn: u32) -> Option<&[u8]> {
        self.offer_of(conn)
    }

    fn took(&mut self, conn: u32, n: u32) {
        self.took(conn, n);
    }

    fn run_of(&self, conn: u32) -> Option<&[u8]> {
        self.run_of(conn)
    }

    fn took_run(&mut self, conn: u32) {
        self.took_run(conn);
    }

    fn closing(&self, conn: u32) -> bool {
        self.closing(conn)
    }

    fn remove(&mut self, conn: u32) {
        self.remove(conn);
    }

    fn body(&self, alloc: Global) -> Result<Octets, NoMemory> {
        let mut body = Octets::new(alloc);
        self.ports().persistent(alloc, &mut body)?;
        Ok(body)
    }

    fn is_body(&self, alloc: Global, text: &[u8]) -> Result<bool, NoMemory> {
        self.ports().persists(alloc, text)
    }

    ghost apart = { λ m x s. s.serves.server.outlets.apart };

    ghost opens_alone = { events_open_alone device.served };
}

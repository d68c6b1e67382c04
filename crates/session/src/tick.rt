//! A tick: the due notifications of one client are checked.

ghost use Rattle.std.specs.Prelude.{◌≡◌, length, map, All, IfOk, OnOk};
ghost use Rattle.spec_machine.specs.World.{World};
ghost use Rattle.spec_machine.specs.Client.{Client};
ghost use Rattle.spec_machine.specs.Ticks.{client_after_tick};
ghost use Rattle.notify_table.specs.Table.{due_handles};
ghost use Rattle.port_device.specs.Holds.{HoldsPorts};
ghost use Rattle.session.specs.NoteFrames.{produced_of, IsNoteFrame};

use crate::tick_checks::check_due;
use crate::{FrameList, Session};
use ads_base::{NetId, NoMemory};
use port_device::Ports;
use std::alloc::Global;

impl Session {
    ghost use Rattle.session.specs.Served.{IsServed};
    ghost use Rattle.session.specs.StandsFor.{StandsFor};

    /// Checks the notifications that are due at a moment, and gives the frames of their samples, from this NetId: one for each
    /// port and client address, in the order of the least handle in it. It costs what is due, not what is watched.
    ///
    /// After want of memory the session is not used again. Beckhoff Information System, "ADS Device Notification".
    pub fn tick(
        &mut self,
        alloc: Global,
        ports: &Ports,
        net: NetId,
        now: u64,
    ) -> Result<FrameList, NoMemory>
        requires { IsServed ports.now self.old }
        ensures frames { IfOk result (λ frames. (w : World) (c : Client) → HoldsPorts w ports.now → StandsFor w.plant c self.old
            → w.plant.net ≡ net.bytes → map produced_of frames ≡ (client_after_tick now w c).frames) }
        ensures stands { OnOk result ((w : World) (c : Client) → HoldsPorts w ports.now → StandsFor w.plant c self.old
            → StandsFor w.plant (client_after_tick now w c).client self.new) }
        ensures served { OnOk result (IsServed ports.now self.new) }
        ensures fits { IfOk result (All IsNoteFrame) }
        ensures keeps { self.new ≡ record self.old { watches = self.new.watches } }
    {
        check_due(alloc, &mut self.watches, ports, net, now)
    }

    /// How many notifications a tick at a moment checks.
    pub fn count_due(&self, now: u64) -> usize
        ensures { result ≡ length (due_handles now self.now.watches) }
    {
        self.watches.count_due(now)
    }
}

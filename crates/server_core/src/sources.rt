//! The signals of a device, as a core steps them.

ghost use Rattle.std.specs.Prelude.{◌≡◌, ◌<◌, ◌^◌, List, length, map};
ghost use Rattle.signals.specs.Wave.{Wave, wave_after_step};
ghost use Rattle.spec_machine.specs.World.{World};
ghost use Rattle.spec_machine.specs.Ticks.{world_after_tick};
ghost use Rattle.port_device.specs.Holds.{HoldsPorts};

use port_device::Ports;
use signals::{Bank, Signal};
use std::alloc::Global;
use std::mem;

/// Signals that step at each tick. The boxed signals of a bank are such.
pub trait Sources: Drop {
    /// The waves of the signals, in their order.
    ghost waves: { Self → List Wave };

    /// How many there are.
    fn count(&self) -> usize
        ensures { result ≡ length (waves self.now) };

    /// Each signal steps once, in order, and the low bytes of its value become those of its symbol.
    fn step_into(&mut self, alloc: Global, ports: &mut Ports)
        requires { length (waves self.old) < 2 ^ 32 }
        ensures ports { (w : World) → HoldsPorts w ports.old → w.signals ≡ waves self.old → HoldsPorts (world_after_tick w) ports.new }
        ensures waves { waves self.new ≡ map wave_after_step (waves self.old) };
}

impl Sources for Vec<Box<dyn Signal>> {
    ghost use Rattle.std.specs.Prelude.{map};

    ghost waves = { λ list. map (λ s. (Signal-box s).wave s.value) list.items };

    fn count(&self) -> usize {
        self.len()
    }

    fn step_into(&mut self, alloc: Global, ports: &mut Ports) {
        let mut bank = Bank {
            signals: mem::replace(self, Vec::new(alloc)),
        };
        ports.step_signals(&mut bank);
        let Bank { signals } = bank;
        *self = signals;
    }
}

//! A relay, whose counts are printed.

use crate::counting::Counting;
use crate::relay_summary::relay_summary_line;
use ads_base::{NoMemory, Octets};
use ams_relay::Relay;
use std::alloc::Global;

impl Counting for Relay {
    ghost use Rattle.ams_relay.specs.Relays.{StandsAt};
    ghost use Rattle.plant_commands.specs.Machine.{TellsOf};
    ghost use Rattle.run_tasks.specs.Service.{relay_counts};

    ghost tells = { λ relay line. TellsOf (StandsAt relay) relay_counts line };

    fn counts_line(&self, alloc: Global) -> Result<Octets, NoMemory> {
        relay_summary_line(alloc, self)
    }
}

//! A core, whose counts are printed.

use crate::counting::Counting;
use crate::summary::summary_line;
use ads_base::{NoMemory, Octets};
use server_core::{Core, Sources};
use std::alloc::Global;

impl<S: Sources> Counting for Core<S> {
    ghost use Rattle.plant_commands.specs.Machine.{TellsOf};
    ghost use Rattle.run_tasks.specs.Service.{server_counts};
    ghost use Rattle.server_core.specs.Serves.{StandsAt};

    ghost tells = { λ core line. TellsOf (StandsAt core) server_counts line };

    fn counts_line(&self, alloc: Global) -> Result<Octets, NoMemory> {
        summary_line(alloc, self)
    }
}

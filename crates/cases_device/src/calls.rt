//! The calls that a case may name, a library a line.

mod groups;
mod handles;
mod notifications;
mod ports;
mod routes;
mod sessions;
mod sums;

use ads_base::NoMemory;
use case_sheets::{Answer, Args, Fault, Libraries};
use notify_table::Watches;
use std::alloc::Global;
use sym_handles::Handles;

/// The objects that have a history.
#[derive(Drop)]
pub struct Device {
    handles: Handles,
    watches: Watches,
    plant: Option<ports::Plant>,
}

impl Libraries for Device {
    fn new(alloc: Global) -> Result<Self, NoMemory> {
        Ok(Device {
            handles: Handles::new(alloc)?,
            watches: Watches::new(alloc)?,
            plant: None,
        })
    }

    fn make(
        &mut self,
        alloc: Global,
        library: &str,
        call: &str,
        args: &mut Args<'_>,
        answer: &mut Answer,
    ) -> Result<(), Fault> {
        match library {
            "index_groups" => groups::make(call, args, answer),
            "net_routes" => routes::make(alloc, call, args, answer),
            "notify_table" => notifications::make(alloc, &mut self.watches, call, args, answer),
            "port_device" => ports::make(alloc, &mut self.plant, call, args, answer),
            "session" => sessions::make(alloc, call, args, answer),
            "sum_commands" => sums::make(alloc, call, args, answer),
            "sym_handles" => handles::make(alloc, &mut self.handles, call, args, answer),
            _ => Err(Fault::NoCall),
        }
    }
}

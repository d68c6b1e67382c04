//! The judge of descriptions: the reader by which the server reads them.

use crate::kept_description::KeptDescription;
use ads_base::{ListOf, NetId, NoMemory};
use daemon_log::Judge;
use std::alloc::Global;
use std::io;
use symbol_file::read;
use type_layout::{Description, RouteDesc};

/// Judges by the reader, for so many signals.
#[derive(Drop)]
pub struct PlantJudge {
    pub signals: u32,
    /// Machines without a route may connect too.
    pub lets_others_in: bool,
    /// Where accepted descriptions are kept.
    pub kept: Option<KeptDescription>,
}

impl Judge for PlantJudge {
    fn routes(&self, alloc: Global, bytes: &[u8]) -> Option<ListOf<NetId>> {
        match read(alloc, bytes, self.signals) {
            Ok(Ok(description)) => nets_of(alloc, &description),
            Ok(Err(_)) | Err(NoMemory) => None,
        }
    }

    fn lets_others_in(&self) -> bool {
        self.lets_others_in
    }

    fn keep(&mut self, bytes: &[u8]) -> io::Result<()> {
        match &mut self.kept {
            Some(kept) => kept.keep(bytes),
            None => Ok(()),
        }
    }
}

fn nets_of(alloc: Global, description: &Description) -> Option<ListOf<NetId>> {
    match listed(alloc, description.routes.as_slice()) {
        Ok(nets) => Some(nets),
        Err(NoMemory) => None,
    }
}

// The NetIds of routes.
fn listed(alloc: Global, routes: &[RouteDesc]) -> Result<ListOf<NetId>, NoMemory> {
    let mut nets = ListOf::new(alloc);
    for route in routes {
        nets.push(alloc, route.net)?;
    }
    Ok(nets)
}

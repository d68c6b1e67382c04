//! The judge of a case: the reader of descriptions.

use ads_base::{ListOf, NetId, NoMemory};
use daemon_log::Judge;
use std::alloc::Global;
use symbol_file::read;
use type_layout::{Description, RouteDesc};

/// Reads descriptions, for so many signals, and knows whether a right is given to others.
#[derive(Clone, Copy, Debug)]
pub struct CaseJudge {
    pub signals: u32,
    /// Machines without a route may connect too.
    pub lets_others_in: bool,
}

impl Judge for CaseJudge {
    fn routes(&self, alloc: Global, bytes: &[u8]) -> Option<ListOf<NetId>> {
        match read(alloc, bytes, self.signals) {
            Ok(Ok(description)) => nets_of(alloc, &description),
            Ok(Err(_)) | Err(NoMemory) => None,
        }
    }

    fn lets_others_in(&self) -> bool {
        self.lets_others_in
    }
}

fn nets_of(alloc: Global, description: &Description) -> Option<ListOf<NetId>> {
    match listed(alloc, description.routes.as_slice()) {
        Ok(nets) => Some(nets),
        Err(NoMemory) => None,
    }
}

// The NetIds of routes.
fn listed(alloc: Global, routes: &[RouteDesc]) -> Result<ListOf<NetId>, NoMemory> {
    let mut nets = ListOf::new(alloc);
    for route in routes {
        nets.push(alloc, route.net)?;
    }
    Ok(nets)
}

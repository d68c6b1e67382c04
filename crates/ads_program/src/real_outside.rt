//! What the program hands to a run: files, a wire, a link, a disk and a keeper of the system.

use ads_base::NoMemory;
use ads_edge::{RealFiles, RealLink, RealWire};
use real_disk::RealDisk;
use sqlite_samples::SqliteKeeper;

/// The outside of a process but its standard output. Nothing is opened yet.
#[derive(Drop)]
pub struct RealOutside {
    pub files: RealFiles<HostRuntime>,
    pub wire: RealWire<HostRuntime>,
    pub link: RealLink<HostRuntime>,
    pub disk: RealDisk<HostRuntime>,
    pub keeper: SqliteKeeper,
}

impl RealOutside {
    pub fn new(rt: &HostRuntime) -> Result<RealOutside, NoMemory> {
        Ok(RealOutside {
            files: RealFiles::new(rt.alloc(), *rt)?,
            wire: RealWire::new(rt.alloc(), *rt)?,
            link: RealLink::new(*rt),
            disk: RealDisk::new(*rt),
            keeper: SqliteKeeper::new(*rt),
        })
    }
}

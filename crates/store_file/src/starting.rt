//! The file of a store is found, locked and looked at before anything is served.

use crate::copies::remove_parts;
use crate::copy_name::folder_of;
use crate::fault::StoreFault;
use crate::kept::{Found, Kept};
use crate::node::Node;
use crate::system::{lock, node_at, open_regular, real_path, sync_folder};
use daemon_log::Noticeboard;
use std::fs;
use std::io::ErrorKind;

/// How often a name is followed that is moved meanwhile.
const TRIES: u32 = 8;

/// Opens and locks the file under a name, and makes one that is not there. One that is damaged is begun with where that is wanted.
pub(crate) fn start(
    rt: &HostRuntime,
    board: Noticeboard,
    name: &str,
    begins_damaged: bool,
) -> Result<Kept, StoreFault> {
    let found = found_under(rt, name)?;
    remove_parts(rt, found.real.as_str());
    let name = String::from_str(rt.alloc(), name)?;
    let mut kept = Kept::new(*rt, board, name, found);
    kept.mend(begins_damaged)?;
    Ok(kept)
}

// The file under a name, locked. It is looked for again where the name leads elsewhere once it is locked.
fn found_under(rt: &HostRuntime, name: &str) -> Result<Found, StoreFault> {
    for _ in 0..TRIES {
        let file = open_regular(rt, name)?;
        let node = Node::of(&file.metadata()?);
        lock(&file)?;
        if node_at(rt, name)?.is(node) {
            let real = real_path(rt, name)?;
            let folder = node_at(rt, folder_of(real.as_str()))?;
            sync_folder(rt, real.as_str())?;
            return Ok(Found {
                file,
                node,
                real,
                folder,
            });
        }
    }
    Err(StoreFault::System(ErrorKind::NotFound.into()))
}

/// Whether the name itself is a link.
pub(crate) fn is_link(rt: &HostRuntime, name: &str) -> bool {
    match fs::symlink_metadata(rt, name) {
        Ok(metadata) => metadata.is_symlink(),
        Err(_) => false,
    }
}

//! Copies of a store's file.

use crate::beside::{Named, Part, give_name, names_beside, new_part, remove_beside, remove_part};
use crate::copy_name::{Rank, file_name, goes, rank_of};
use crate::fault::StoreFault;
use crate::system::{CopyFault, copy_bytes, sync_folder};
use ads_base::NoMemory;
use daemon_edge::moment_now;
use persist_store::{Entries, Saved, Store, StoreOpen};
use real_disk::RealDisk;
use std::fs::File;
use std::io::{self, ErrorKind};
use std::os::unix::fs::MetadataExt;

/// The greatest number of copies that are ordered.
const MOST_RANKS: usize = 1_000;

/// What a copy is: what stood before entries were left out, or a store that was damaged.
#[derive(Clone, Copy, Debug, PartialEq, Eq)]
pub(crate) enum CopyKind {
    Before,
    Damaged,
}

impl CopyKind {
    fn word(self) -> &'static str {
        match self {
            CopyKind::Before => "before",
            CopyKind::Damaged => "damaged",
        }
    }
}

/// Copies a file beside the store's; a body is saved into the copy, where one is given. What fails leaves no part of it. Of the
/// copies of what stood before, the last 20 stay.
pub(crate) fn make_copy(
    rt: &HostRuntime,
    from: &File,
    store: &str,
    kind: CopyKind,
    body: Option<&[u8]>,
) -> Result<String, StoreFault> {
    let part = new_part(rt, store, from.metadata()?.mode())?;
    match copied(rt, from, &part, store, kind, body) {
        Ok(Named { name, rank }) => {
            sync_folder(rt, store)?;
            if kind == CopyKind::Before {
                remove_old(rt, store, rank);
            }
            Ok(name)
        }
        Err(fault) => {
            remove_part(rt, &part);
            Err(fault)
        }
    }
}

fn copied(
    rt: &HostRuntime,
    from: &File,
    part: &Part,
    store: &str,
    kind: CopyKind,
    body: Option<&[u8]>,
) -> Result<Named, StoreFault> {
    match copy_bytes(rt.alloc(), from, &part.file) {
        Ok(()) => {}
        Err(CopyFault::Read(error) | CopyFault::Write(error)) => return Err(StoreFault::System(
            error,
        )),
    }
    part.file.sync_all()?;
    if let Some(body) = body {
        save_into(rt, part.name.as_str(), body)?;
    }
    give_name(rt, part, store, kind.word(), moment_now(rt))
}

// Saves a body into the store of this name, as its next save.
fn save_into(rt: &HostRuntime, name: &str, body: &[u8]) -> Result<(), StoreFault> {
    if Entries::read(body).is_none() {
        return Err(StoreFault::System(ErrorKind::InvalidData.into()));
    }
    let mut disk = RealDisk::new(*rt);
    let opened = match Store::open(rt.alloc(), &mut disk, name) {
        Ok(opened) => opened,
        Err(NoMemory) => return Err(StoreFault::Memory),
    };
    let StoreOpen::Ready(mut store) = opened else {
        return Err(disk_failed());
    };
    match store.save(rt.alloc(), &mut disk, body) {
        Ok(Saved::Done) => Ok(()),
        Ok(Saved::Failed | Saved::Limit | Saved::Shut) => Err(disk_failed()),
        Err(NoMemory) => Err(StoreFault::Memory),
    }
}

fn disk_failed() -> StoreFault {
    StoreFault::System(io::Error::new(ErrorKind::Other, "the disk failed"))
}

// The copies that go are removed, as far as that goes.
fn remove_old(rt: &HostRuntime, store: &str, made: Rank) {
    let Ok(names) = names_beside(rt, store) else {
        return;
    };
    let mut ranks = Vec::new(rt.alloc());
    for name in names.as_slice() {
        if let Some(rank) = rank_of(file_name(store), name.as_str()) {
            if ranks.len() < MOST_RANKS {
                let _ = ranks.push(rank);
            }
        }
    }
    for name in names.as_slice() {
        if let Some(rank) = rank_of(file_name(store), name.as_str()) {
            if goes(rank, ranks.as_slice(), made) {
                remove_beside(rt, store, name.as_str());
            }
        }
    }
}

/// Removes what a daemon that was killed left of files that it was making.
pub(crate) fn remove_parts(rt: &HostRuntime, store: &str) {
    let Ok(names) = names_beside(rt, store) else {
        return;
    };
    for name in names.as_slice() {
        if is_part(file_name(store), name.as_str()) {
            remove_beside(rt, store, name.as_str());
        }
    }
}

// Whether a name is that of a file that is being made: a number from 1 to 99 behind it.
fn is_part(store: &str, name: &str) -> bool {
    let Some(behind) = name.strip_prefix(store) else {
        return false;
    };
    let Some(number) = behind.strip_prefix(".part-") else {
        return false;
    };
    let digits = number.as_bytes();
    0 < digits.len()
        && digits.len() < 3
        && digits[0] != b'0'
        && digits.iter().all(|byte| byte.is_ascii_digit())
}

//! The calls of the system, each alone: a file is opened, locked, read, written, copied, brought to the disk.

ghost use Rattle.std.specs.Prelude.{◌≡◌, ◌≤◌, IfOk, length};

use crate::copy_name::folder_of;
use crate::fault::StoreFault;
use crate::file_kind::{FileKind, kind_of};
use crate::node::Node;
use crate::slots::MAX_BODY;
use ads_base::get32;
use std::alloc::Global;
use std::fs::{self, File, OpenOptions, TryLockError};
use std::io::{self, ErrorKind};
use std::os::unix::fs::{FileExt, MetadataExt};

/// How many bytes are copied at once.
const PIECE: usize = 65_536;

/// Opens the regular file under a name, and makes one that is not there. What is no regular file is looked at before, so that no
/// pipe and no device is opened; one that comes between is opened for reading and writing, for which a pipe waits for nobody.
pub(crate) fn open_regular(rt: &HostRuntime, name: &str) -> Result<File, StoreFault> {
    match fs::metadata(rt, name) {
        Ok(metadata) => regular(metadata.mode())?,
        Err(error) if error.kind() == ErrorKind::NotFound => {}
        Err(error) => return Err(StoreFault::System(error)),
    }
    let file = OpenOptions::new()
        .read(true)
        .write(true)
        .create(true)
        .open(rt, name)?;
    regular(file.metadata()?.mode())?;
    Ok(file)
}

fn regular(mode: u32) -> Result<(), StoreFault> {
    match kind_of(mode) {
        FileKind::Regular => Ok(()),
        kind => Err(StoreFault::NoFile(kind)),
    }
}

/// Locks a file, without a wait.
pub(crate) fn lock(file: &File) -> Result<(), StoreFault> {
    match file.try_lock() {
        Ok(()) => Ok(()),
        Err(TryLockError::WouldBlock) => Err(StoreFault::Taken),
        Err(TryLockError::Error(error)) => Err(StoreFault::System(error)),
    }
}

/// Which file a name leads to.
pub(crate) fn node_at(rt: &HostRuntime, name: &str) -> io::Result<Node> {
    Ok(Node::of(&fs::metadata(rt, name)?))
}

/// Where a name leads, behind all links.
pub(crate) fn real_path(rt: &HostRuntime, name: &str) -> io::Result<String> {
    let path = fs::canonicalize(rt, name)?;
    Ok(String::from_str(rt.alloc(), path.as_str())?)
}

/// Brings the folder of a path to the disk.
pub(crate) fn sync_folder(rt: &HostRuntime, path: &str) -> io::Result<()> {
    OpenOptions::new()
        .read(true)
        .open(rt, folder_of(path))?
        .sync_all()
}

/// Reads what stands at a place into the front of a buffer, as far as there is room, and tells how many bytes it is.
pub(crate) fn read_at(file: &File, at: u64, buf: &mut [u8]) -> io::Result<u32>
    ensures few { IfOk result (λ n. n ≤ length buf.new) }
    ensures room { length buf.new ≡ length buf.old }
{
    let room = buf.len().min(u32::MAX as usize);
    let mut len = 0;
    for _ in 0..u64::MAX {
        if len >= room {
            break;
        }
        match file.read_at(&mut buf[len..room], at.saturating_add(len as u64)) {
            Ok(0) => break,
            Ok(n) => len += n,
            Err(error) => {
                if error.kind() != ErrorKind::Interrupted {
                    return Err(error);
                }
            }
        }
    }
    Ok(len as u32)
}

/// The slot at a place of a file: its first 13 bytes, and as many as its length says behind them, as far as they are there.
pub(crate) fn slot_at(alloc: Global, file: &File, place: u64) -> Result<Vec<u8>, StoreFault> {
    let mut head = [0u8; 13];
    let n = read_at(file, place, &mut head)? as usize;
    if n < 13 {
        return Ok(head[..n].to_vec(alloc)?);
    }
    let len = (get32(&head, 9) as usize).min(MAX_BODY);
    let mut slot = Vec::from_elem(alloc, 0u8, 13 + len)?;
    let n = read_at(file, place, slot.as_mut_slice())? as usize;
    slot.truncate(n);
    Ok(slot)
}

/// Copies a file's bytes into another, which is new.
pub(crate) fn copy_bytes(alloc: Global, from: &File, to: &File) -> Result<(), CopyFault> {
    let mut piece = match Vec::from_elem(alloc, 0u8, PIECE) {
        Ok(piece) => piece,
        Err(_) => return Err(CopyFault::Write(ErrorKind::OutOfMemory.into())),
    };
    let mut at = 0u64;
    for _ in 0..u64::MAX {
        let n = match read_at(from, at, piece.as_mut_slice()) {
            Ok(n) => n as usize,
            Err(error) => return Err(CopyFault::Read(error)),
        };
        if n == 0 {
            break;
        }
        if let Err(error) = put_piece(to, at, &piece.as_slice()[..n]) {
            return Err(CopyFault::Write(error));
        }
        at = at.saturating_add(n as u64);
    }
    match to.set_len(at) {
        Ok(()) => Ok(()),
        Err(error) => Err(CopyFault::Write(error)),
    }
}

// Zeros are left out: between its slots a store's file has a hole.
fn put_piece(to: &File, at: u64, piece: &[u8]) -> io::Result<()> {
    if piece.iter().all(|byte| *byte == 0) {
        return Ok(());
    }
    to.write_all_at(piece, at)
}

/// Why a file's bytes are not copied.
#[derive(Debug, Drop)]
pub(crate) enum CopyFault {
    /// They can't be read.
    Read(io::Error),
    /// They can't be written.
    Write(io::Error),
}

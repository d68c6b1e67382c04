//! A file on a disk of the system.

ghost use Rattle.std.specs.Prelude.{◌≡◌, ◌≤◌, None, IfOk, length};
ghost use Rattle.ads_outside.specs.Rose.{Rose};

use ads_outside::Wire;
use persist_store::{Disk, DiskOpen, DiskRead, Synced, Wrote};
use std::alloc::Alloc;
use std::fs::{self, OpenFile, OpenOptions};
use std::io::{self, ErrorKind, Read, Seek, SeekFrom, Write};
use std::rt::Files;

/// A file on a disk of the system, by its path. What it holds, and what a stop of the machine leaves of it, is not told. A
/// call before an opening that is done fails.
#[derive(Drop)]
pub struct RealDisk<R: Files + Alloc + Drop> {
    rt: R,
    file: Option<R::File>,
    faults: u64,
}

impl<R: Files + Alloc + Drop> RealDisk<R> {
    /// No file is open.
    pub fn new(rt: R) -> RealDisk<R> {
        RealDisk {
            rt,
            file: None,
            faults: 0,
        }
    }
}

// One fault more.
fn count(faults: &mut u64)
    ensures rose { Rose faults.old faults.new }
    ensures later { faults.old ≤ faults.new }
{
    *faults = faults.saturating_add(1);
}

impl<R: Files + Alloc + Drop> Disk for RealDisk<R> {
    ghost use Rattle.std.specs.Prelude.{None};

    ghost contents = { λ d. None };

    ghost may_leave = { λ d c. Unit {0} };

    ghost moment = { λ d. 0 };

    ghost left_since = { λ d t c. Unit {0} };

    ghost marked = { λ d marks. Unit {0} };

    ghost names = { λ d. None };

    ghost fault_count = { λ d. d.faults };

    ghost leaves_contents = { λ d file told. tt };

    ghost counts_now = { λ d t c le now. now };

    ghost only_now = { λ d c left. left };

    fn faults(&self) -> u64 {
        self.faults
    }

    fn open(&mut self, name: &str) -> DiskOpen {
        self.file = None;
        match opened(&self.rt, name) {
            Ok((file, len)) => {
                self.file = Some(file);
                DiskOpen::Ready(len)
            }
            Err(error) if error.kind() == ErrorKind::OutOfMemory => DiskOpen::Memory,
            Err(_) => {
                count(&mut self.faults);
                DiskOpen::Failed
            }
        }
    }

    fn read(&mut self, at: u64, buf: &mut [u8]) -> DiskRead {
        match read_in(&mut self.file, at, buf) {
            Ok(n) => DiskRead::Bytes(n),
            Err(_) => {
                count(&mut self.faults);
                DiskRead::Failed
            }
        }
    }

    fn write_at(&mut self, at: u64, bytes: &[u8]) -> Wrote {
        match write_in(&mut self.file, at, bytes) {
            Ok(()) => Wrote::All,
            Err(_) => {
                count(&mut self.faults);
                Wrote::Failed
            }
        }
    }

    fn sync(&mut self) -> Synced {
        match sync_in(&self.file) {
            Ok(()) => Synced::Done,
            Err(_) => {
                count(&mut self.faults);
                Synced::Failed
            }
        }
    }

    fn mark<W: Wire>(&mut self, _wire: &W) {}
}

// Opens the file at a path, and tells how many bytes it has. One that is not there is made empty, and its folder, which is
// that of the file to which a link leads, brought to the disk, so that it is there after a stop.
fn opened<R: Files + Alloc>(rt: &R, path: &str) -> io::Result<(R::File, u64)> {
    let file = OpenOptions::new()
        .read(true)
        .write(true)
        .create(true)
        .open(rt, path)?;
    let real = fs::canonicalize(rt, path)?;
    let folder = OpenOptions::new()
        .read(true)
        .open(rt, folder_of(real.as_str()))?;
    folder.sync_all()?;
    let len = file.metadata()?.len();
    Ok((file, len))
}

// The folder that a path lies in.
fn folder_of(path: &str) -> &str {
    match path.rsplit_once('/') {
        None => ".",
        Some(("", _)) => "/",
        Some((folder, _)) => folder,
    }
}

// Reads what stands at a place into the front of a buffer, as far as there is room, and tells how many bytes it is.
fn read_in<F: Read + Seek>(file: &mut Option<F>, at: u64, buf: &mut [u8]) -> io::Result<u32>
    ensures few { IfOk result (λ n. n ≤ length buf.new) }
    ensures room { length buf.new ≡ length buf.old }
{
    let Some(file) = file else {
        return Err(io::Error::from(ErrorKind::NotFound));
    };
    file.seek(SeekFrom::Start(at))?;
    fill(file, buf)
}

// Fills a buffer from its front until it is full or nothing comes, and tells how many bytes came.
fn fill<F: Read>(file: &mut F, buf: &mut [u8]) -> io::Result<u32>
    ensures few { IfOk result (λ n. n ≤ length buf.new) }
    ensures room { length buf.new ≡ length buf.old }
{
    let room = buf.len().min(u32::MAX as usize);
    let mut len = 0;
    for _ in 0..u64::MAX {
        if len >= room {
            break;
        }
        match file.read(&mut buf[len..room]) {
            Ok(0) => break,
            Ok(n) => len += n,
            Err(error) => {
                if error.kind() != ErrorKind::Interrupted {
                    return Err(error);
                }
            }
        }
    }
    Ok(len as u32)
}

// Writes bytes at a place.
fn write_in<F: Write + Seek>(file: &mut Option<F>, at: u64, bytes: &[u8]) -> io::Result<()> {
    let Some(file) = file else {
        return Err(io::Error::from(ErrorKind::NotFound));
    };
    file.seek(SeekFrom::Start(at))?;
    file.write_all(bytes)
}

// Brings what was written to the disk.
fn sync_in<F: OpenFile>(file: &Option<F>) -> io::Result<()> {
    let Some(file) = file else {
        return Err(io::Error::from(ErrorKind::NotFound));
    };
    file.sync_all()
}

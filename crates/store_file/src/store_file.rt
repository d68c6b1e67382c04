//! A store's file as the disk of a store.

ghost use Rattle.std.specs.Prelude.{◌≡◌, ◌≤◌, None, IfSome, length};
ghost use Rattle.ads_outside.specs.Rose.{Rose};

use crate::fault::StoreFault;
use crate::kept::Kept;
use crate::starting::{is_link, start};
use ads_base::{NoMemory, Octets};
use ads_outside::Wire;
use daemon_log::Noticeboard;
use persist_store::{Disk, DiskOpen, DiskRead, Synced, Wrote};
use std::alloc::Global;
use std::cell::Cell;
use std::rc::Rc;

/// The file of a store, which is open and locked from the start on. What it holds, and what a stop of the machine leaves of it, is
/// not told. Without a file each call fails.
#[derive(Drop)]
pub struct StoreFile {
    kept: Rc<Cell<Option<Kept>>>,
    link: Option<String>,
    faults: u64,
    is_well: bool,
}

/// One more handle of a store's file, for who knows of new descriptions.
#[derive(Drop)]
pub struct StoreHandle {
    kept: Rc<Cell<Option<Kept>>>,
}

impl StoreFile {
    /// No file.
    pub fn nothing(alloc: Global) -> Result<StoreFile, NoMemory> {
        StoreFile::over(alloc, None, None)
    }

    /// The file under a name, open and locked; one that is not there is made. A damaged one is refused, or where that is wanted
    /// copied and begun with. What it tells goes to the log's board.
    pub fn start(
        rt: &HostRuntime,
        board: Noticeboard,
        name: &str,
        begins_damaged: bool,
    ) -> Result<StoreFile, StoreFault> {
        let kept = start(rt, board, name, begins_damaged)?;
        let link = if is_link(rt, name) {
            Some(String::from_str(rt.alloc(), kept.real.as_str())?)
        } else {
            None
        };
        Ok(StoreFile::over(rt.alloc(), Some(kept), link)?)
    }

    fn over(
        alloc: Global,
        kept: Option<Kept>,
        link: Option<String>,
    ) -> Result<StoreFile, NoMemory> {
        let kept = Rc::new(alloc, Cell::new(kept))?;
        Ok(StoreFile {
            kept,
            link,
            faults: 0,
            is_well: true,
        })
    }

    /// Where the name leads, if it is a link.
    pub fn link(&self) -> Option<&str> {
        match &self.link {
            Some(link) => Some(link.as_str()),
            None => None,
        }
    }

    /// Whether at the last look the name led to the file, and all copies were made.
    pub fn is_well(&self) -> bool {
        self.is_well
    }

    /// A handle for who knows of new descriptions.
    pub fn handle(&self) -> Result<StoreHandle, NoMemory> {
        let kept = self.kept.clone()?;
        Ok(StoreHandle { kept })
    }
}

impl StoreHandle {
    /// A new description was accepted: these are the bodies of what was served before it and of what is served now, each None
    /// where memory was wanting for it. What the second leaves out is copied at once.
    pub fn replaced(&self, before: &Option<Octets>, now: &Option<Octets>) {
        let mut held = self.kept.replace(None);
        if let Some(kept) = &mut held {
            kept.replace(before, now);
        }
        self.kept.set(held);
    }
}

// One fault more.
fn count(faults: &mut u64)
    ensures rose { Rose faults.old faults.new }
    ensures later { faults.old ≤ faults.new }
{
    *faults = faults.saturating_add(1);
}

impl Disk for StoreFile {
    ghost use Rattle.std.specs.Prelude.{None};

    ghost contents = { λ d. None };

    ghost may_leave = { λ d c. Unit {0} };

    ghost moment = { λ d. 0 };

    ghost left_since = { λ d t c. Unit {0} };

    ghost marked = { λ d marks. Unit {0} };

    ghost names = { λ d. None };

    ghost fault_count = { λ d. d.faults };

    ghost leaves_contents = { λ d file told. tt };

    ghost counts_now = { λ d t c le now. now };

    ghost only_now = { λ d c left. left };

    fn faults(&self) -> u64 {
        self.faults
    }

    fn open(&mut self, name: &str) -> DiskOpen {
        match opened(&self.kept, name) {
            DiskOpen::Ready(len) => DiskOpen::Ready(len),
            DiskOpen::Memory => DiskOpen::Memory,
            DiskOpen::Failed => {
                count(&mut self.faults);
                DiskOpen::Failed
            }
        }
    }

    fn read(&mut self, at: u64, buf: &mut [u8]) -> DiskRead {
        match read_in(&self.kept, at, buf) {
            Some(n) => DiskRead::Bytes(n),
            None => {
                count(&mut self.faults);
                DiskRead::Failed
            }
        }
    }

    fn write_at(&mut self, at: u64, bytes: &[u8]) -> Wrote {
        match written_in(&self.kept, at, bytes) {
            Wrote::All => Wrote::All,
            Wrote::Memory => Wrote::Memory,
            Wrote::Failed => {
                count(&mut self.faults);
                Wrote::Failed
            }
        }
    }

    fn sync(&mut self) -> Synced {
        match synced_in(&self.kept) {
            Synced::Done => Synced::Done,
            Synced::Failed => {
                count(&mut self.faults);
                Synced::Failed
            }
        }
    }

    fn mark<W: Wire>(&mut self, _wire: &W) {
        // It comes behind each look at what is to be saved.
        self.is_well = tended(&self.kept);
    }
}

fn opened(cell: &Rc<Cell<Option<Kept>>>, name: &str) -> DiskOpen {
    let mut held = cell.replace(None);
    let answer = match &mut held {
        Some(kept) if kept.name.as_str() == name => match kept.open() {
            Ok(len) => DiskOpen::Ready(len),
            Err(StoreFault::Memory) => DiskOpen::Memory,
            Err(_) => DiskOpen::Failed,
        },
        _ => DiskOpen::Failed,
    };
    cell.set(held);
    answer
}

fn read_in(cell: &Rc<Cell<Option<Kept>>>, at: u64, buf: &mut [u8]) -> Option<u32>
    ensures few { IfSome result (λ n. n ≤ length buf.new) }
    ensures room { length buf.new ≡ length buf.old }
{
    let held = cell.replace(None);
    let answer = match &held {
        Some(kept) => kept.read(at, buf).ok(),
        None => None,
    };
    cell.set(held);
    answer
}

fn written_in(cell: &Rc<Cell<Option<Kept>>>, at: u64, bytes: &[u8]) -> Wrote {
    let mut held = cell.replace(None);
    let answer = match &mut held {
        Some(kept) => match kept.write(at, bytes) {
            Ok(()) => Wrote::All,
            Err(StoreFault::Memory) => Wrote::Memory,
            Err(_) => Wrote::Failed,
        },
        None => Wrote::Failed,
    };
    cell.set(held);
    answer
}

fn synced_in(cell: &Rc<Cell<Option<Kept>>>) -> Synced {
    let mut held = cell.replace(None);
    let answer = match &mut held {
        Some(kept) => match kept.sync() {
            Ok(()) => Synced::Done,
            Err(_) => Synced::Failed,
        },
        None => Synced::Failed,
    };
    cell.set(held);
    answer
}

fn tended(cell: &Rc<Cell<Option<Kept>>>) -> bool {
    let mut held = cell.replace(None);
    let answer = match &mut held {
        Some(kept) => kept.tend(),
        None => true,
    };
    cell.set(held);
    answer
}

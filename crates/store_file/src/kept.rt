//! What a daemon keeps of its store's file.

ghost use Rattle.std.specs.Prelude.{◌≡◌, ◌≤◌, IfOk, length};

use crate::copies::{CopyKind, make_copy};
use crate::fault::StoreFault;
use crate::node::Node;
use crate::slots::{SECOND_SLOT, standing_body};
use crate::system::{read_at, slot_at};
use crate::told::{copied_line, tell_left_out, tell_unfit};
use crate::writes::{body_written, opens_gate};
use ads_base::{ListOf, NoMemory, Octets};
use daemon_entries::{count_in, left_out, with_entries};
use daemon_log::{Level, Noticeboard};
use std::alloc::AllocError;
use std::fs::File;
use std::io;
use std::os::unix::fs::FileExt;

/// The greatest number of bodies of new descriptions that wait for a copy, and of those that were copied since the last save: as
/// many as copies stay.
const MOST_BODIES: usize = 20;

/// The file of a store, open and locked, its names, and the bodies that a save is about to leave behind.
#[derive(Drop)]
pub(crate) struct Kept {
    pub(crate) rt: HostRuntime,
    pub(crate) board: Noticeboard,
    /// The name that was given, and where it leads.
    pub(crate) name: String,
    pub(crate) real: String,
    pub(crate) file: File,
    pub(crate) node: Node,
    /// The folder that the file lies in.
    pub(crate) folder: Node,
    /// The folder is to be brought to the disk, since the file got its name anew.
    pub(crate) is_unsettled: bool,
    /// Bodies at new descriptions that are not copied yet, the oldest first.
    pub(crate) waiting: Vec<Octets>,
    /// Memory was wanting for such a body: the file is to be copied.
    pub(crate) wants_copy: bool,
    // Bodies that stand in copies which were made since the last save.
    copied: Vec<Octets>,
    // A gate was opened, which ends a save with the next sync.
    is_opened: bool,
    // Why nothing is saved, as it was told; and whether a body was not written since the last look, as no copy could be made.
    held: Option<String>,
    is_failing: bool,
}

/// What a start finds of a file.
#[derive(Drop)]
pub(crate) struct Found {
    pub(crate) file: File,
    pub(crate) node: Node,
    pub(crate) real: String,
    pub(crate) folder: Node,
}

impl Kept {
    /// The file that was found under a name.
    pub(crate) fn new(rt: HostRuntime, board: Noticeboard, name: String, found: Found) -> Kept {
        let Found {
            file,
            node,
            real,
            folder,
        } = found;
        Kept {
            rt,
            board,
            name,
            real,
            file,
            node,
            folder,
            is_unsettled: false,
            waiting: Vec::new(rt.alloc()),
            wants_copy: false,
            copied: Vec::new(rt.alloc()),
            is_opened: false,
            held: None,
            is_failing: false,
        }
    }

    /// The file under its name, mended where it is damaged: how many bytes it has.
    pub(crate) fn open(&mut self) -> Result<u64, StoreFault> {
        self.look_and_tell()?;
        self.mend(true)?;
        Ok(self.file.metadata()?.len())
    }

    /// Reads what stands at a place.
    pub(crate) fn read(&self, at: u64, buf: &mut [u8]) -> io::Result<u32>
        ensures few { IfOk result (λ n. n ≤ length buf.new) }
        ensures room { length buf.new ≡ length buf.old }
    {
        read_at(&self.file, at, buf)
    }

    /// Writes at a place. Before a body, what it leaves out is copied; where that can't be done nothing is written.
    pub(crate) fn write(&mut self, at: u64, bytes: &[u8]) -> Result<(), StoreFault> {
        if let Some(body) = body_written(at, bytes) {
            if let Err(fault) = self.copy_before(body) {
                self.is_failing = true;
                self.hold(&fault);
                return Err(fault);
            }
        }
        self.file.write_all_at(bytes, at)?;
        self.is_opened = opens_gate(at, bytes);
        Ok(())
    }

    /// Brings what was written to the disk. Behind the last step of a save the name must lead to the file.
    pub(crate) fn sync(&mut self) -> Result<(), StoreFault> {
        self.file.sync_all()?;
        if self.is_opened {
            self.is_opened = false;
            self.copied.clear();
            self.look_and_tell()?;
        }
        Ok(())
    }

    /// What is due at each look at what is to be saved: the name must lead to the file, and bodies that wait are copied. False
    /// where that can't be done.
    pub(crate) fn tend(&mut self) -> bool {
        let looked = self.look_and_tell().is_ok();
        let copied = match self.copy_waiting() {
            Ok(()) => true,
            Err(fault) => {
                self.hold(&fault);
                false
            }
        };
        let is_well = looked && copied && !self.is_failing;
        self.is_failing = false;
        if is_well && self.held.is_some() {
            self.held = None;
            self.board.post_held(None);
            self.tell(
                Level::Notice,
                String::from_str(self.rt.alloc(), "store: saves go on"),
            );
        }
        is_well
    }

    /// The body that stands in the file.
    pub(crate) fn standing(&self) -> Result<Option<Octets>, StoreFault> {
        let alloc = self.rt.alloc();
        let first = slot_at(alloc, &self.file, 0)?;
        let second = slot_at(alloc, &self.file, SECOND_SLOT)?;
        match standing_body(first.as_slice(), second.as_slice()) {
            None => Ok(None),
            Some(body) => Ok(Some(Octets::copy_of(alloc, body)?)),
        }
    }

    /// What is to be copied before this body is written, or before another is served in its place.
    pub(crate) fn copy_before(&mut self, body: &[u8]) -> Result<(), StoreFault> {
        self.copy_waiting()?;
        let Some(standing) = self.standing()? else {
            return Ok(());
        };
        let names = self.names_left_out(standing.as_slice(), body)?;
        if names.len() == 0 {
            return Ok(());
        }
        self.copy_file(standing, names)
    }

    // The names of what stands that neither a body nor a copy since the last save has.
    fn names_left_out(&self, standing: &[u8], body: &[u8]) -> Result<ListOf<Octets>, NoMemory> {
        let mut kept = with_entries(Vec::new(self.rt.alloc()), body)?;
        for copied in self.copied.as_slice() {
            kept = with_entries(kept, copied.as_slice())?;
        }
        left_out(self.rt.alloc(), standing, kept.as_slice())
    }

    // The file is copied as it stands.
    fn copy_file(&mut self, standing: Octets, names: ListOf<Octets>) -> Result<(), StoreFault> {
        let name = make_copy(
            &self.rt,
            &self.file,
            self.real.as_str(),
            CopyKind::Before,
            None,
        )?;
        let entries = count_in(standing.as_slice());
        self.tell(
            Level::Warning,
            copied_line(self.rt.alloc(), name.as_str(), entries),
        );
        tell_left_out(self.rt.alloc(), &self.board, names.as_slice());
        self.was_copied(standing);
        Ok(())
    }

    /// Copies what waits: the bodies of new descriptions, the oldest first, and the file where such a body was not had.
    pub(crate) fn copy_waiting(&mut self) -> Result<(), StoreFault> {
        if self.wants_copy {
            let standing = match self.standing()? {
                Some(body) => body,
                None => Octets::new(self.rt.alloc()),
            };
            let nobody = ListOf::new(self.rt.alloc());
            self.copy_file(standing, nobody)?;
            self.wants_copy = false;
        }
        for _ in 0..MOST_BODIES {
            if self.waiting.len() == 0 {
                return Ok(());
            }
            self.copy_oldest()?;
        }
        Ok(())
    }

    // The oldest body that waits is saved into a copy of the file.
    fn copy_oldest(&mut self) -> Result<(), StoreFault> {
        let Some(body) = self.waiting.first() else {
            return Ok(());
        };
        let name = make_copy(
            &self.rt,
            &self.file,
            self.real.as_str(),
            CopyKind::Before,
            Some(body.as_slice()),
        )?;
        let entries = count_in(body.as_slice());
        self.tell(
            Level::Warning,
            copied_line(self.rt.alloc(), name.as_str(), entries),
        );
        if self.waiting.len() != 0 {
            let body = self.waiting.remove(0);
            self.was_copied(body);
        }
        Ok(())
    }

    // A body stands in a copy. Where there is no room to know that, it is copied once more.
    fn was_copied(&mut self, body: Octets) {
        if self.copied.len() < MOST_BODIES {
            let _ = self.copied.push(body);
        }
    }

    /// Other bodies than those of the file stand behind its name: no copy is known to have them.
    pub(crate) fn forget_copies(&mut self) {
        self.copied.clear();
    }

    /// No copy can be made, so nothing is written that leaves out values: told once, and held against saves.
    pub(crate) fn hold(&mut self, fault: &StoreFault) {
        let alloc = self.rt.alloc();
        let real = self.real.as_str();
        let why = match fault.sentence(alloc) {
            Ok(why) => why,
            Err(_) => return,
        };
        let why = why.as_str();
        let text = format!(in alloc;
            "store held: no copy can be made beside {real} ({why}), so no save that leaves out values is made"
        );
        self.fail(text);
    }

    /// Nothing is saved, and why: told where it was not told before.
    pub(crate) fn fail(&mut self, text: Result<String, AllocError>) {
        let Ok(text) = text else {
            return;
        };
        if let Some(held) = &self.held {
            if held.as_str() == text.as_str() {
                return;
            }
        }
        if self.tell_held(text.as_str()).is_ok() {
            self.held = Some(text);
        }
    }

    fn tell_held(&self, text: &str) -> Result<(), AllocError> {
        let alloc = self.rt.alloc();
        self.board
            .post_line(Level::Error, String::from_str(alloc, text)?);
        self.board.post_held(Some(String::from_str(alloc, text)?));
        Ok(())
    }

    /// A line for the log, if there was memory for it.
    pub(crate) fn tell(&self, level: Level, text: Result<String, AllocError>) {
        if let Ok(text) = text {
            self.board.post_line(level, text);
        }
    }

    /// Entries of a body that fit none of what is served.
    pub(crate) fn tell_unfit(&self, names: &[Octets]) {
        tell_unfit(self.rt.alloc(), &self.board, names);
    }
}

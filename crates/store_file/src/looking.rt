//! Whether a name still leads to the file that is saved.

use crate::beside::{Part, new_part, remove_part};
use crate::copies::{CopyKind, make_copy};
use crate::copy_name::folder_of;
use crate::fault::StoreFault;
use crate::kept::{Found, Kept};
use crate::node::Node;
use crate::system::{CopyFault, copy_bytes, lock, node_at, open_regular, real_path, sync_folder};
use daemon_log::Level;
use std::fs::{self, File};
use std::io;
use std::os::unix::fs::MetadataExt;

/// How the bytes of a file came under its name.
#[derive(Drop)]
enum Written {
    /// They were written anew, into this file.
    Anew(File),
    /// They can't be read any more.
    Lost,
}

impl Kept {
    /// Looks whether the name leads to the file. Where it does not, what stands there is copied if there is something in it, and
    /// the file is written anew under its name. Where that can't be done it is told.
    pub(crate) fn look_and_tell(&mut self) -> Result<(), StoreFault> {
        match self.look() {
            Ok(()) => Ok(()),
            Err(fault) => {
                self.tell_away(&fault);
                Err(fault)
            }
        }
    }

    fn look(&mut self) -> Result<(), StoreFault> {
        if !self.is_named() {
            self.write_anew()?;
        }
        if self.is_unsettled {
            sync_folder(&self.rt, self.real.as_str())?;
            self.is_unsettled = false;
        }
        Ok(())
    }

    // Whether the name leads to the file, in the folder where it was.
    fn is_named(&self) -> bool {
        match (
            node_at(&self.rt, self.name.as_str()),
            node_at(&self.rt, folder_of(self.real.as_str())),
        ) {
            (Ok(node), Ok(folder)) => node.is(self.node) && folder.is(self.folder),
            _ => false,
        }
    }

    // The name is made to lead to what the file holds.
    fn write_anew(&mut self) -> Result<(), StoreFault> {
        let there = open_regular(&self.rt, self.name.as_str())?;
        let node = Node::of(&there.metadata()?);
        let real = real_path(&self.rt, self.name.as_str())?;
        let folder = node_at(&self.rt, folder_of(real.as_str()))?;
        if node.is(self.node) {
            self.real = real;
            self.folder = folder;
            self.is_unsettled = true;
            return Ok(());
        }
        lock(&there)?;
        self.copy_stranger(&there, real.as_str())?;
        match self.written_beside(real.as_str())? {
            Written::Anew(file) => {
                let node = Node::of(&file.metadata()?);
                self.adopt(Found {
                    file,
                    node,
                    real,
                    folder,
                });
                self.tell_anew();
                self.is_still_named()
            }
            Written::Lost => {
                self.adopt(Found {
                    file: there,
                    node,
                    real,
                    folder,
                });
                self.forget_copies();
                self.tell_lost();
                Ok(())
            }
        }
    }

    // What stands under the name is copied, if there is something in it.
    fn copy_stranger(&mut self, there: &File, real: &str) -> Result<(), StoreFault> {
        if there.metadata()?.len() == 0 {
            return Ok(());
        }
        let copy = make_copy(&self.rt, there, real, CopyKind::Before, None)?;
        let copy = copy.as_str();
        let name = self.name.as_str();
        let text = format!(in self.rt.alloc();
            "store: another file stood at {name}, copied to {copy}"
        );
        self.tell(Level::Error, text);
        Ok(())
    }

    // What the file holds is written beside, brought to the disk and locked, and gets the name.
    fn written_beside(&self, real: &str) -> Result<Written, StoreFault> {
        let part = new_part(&self.rt, real, self.file.metadata()?.mode())?;
        match copy_bytes(self.rt.alloc(), &self.file, &part.file) {
            Ok(()) => {}
            Err(CopyFault::Read(_)) => {
                remove_part(&self.rt, &part);
                return Ok(Written::Lost);
            }
            Err(CopyFault::Write(error)) => {
                remove_part(&self.rt, &part);
                return Err(StoreFault::System(error));
            }
        }
        match self.takes_name(&part, real) {
            Ok(()) => {
                let Part { name: _name, file } = part;
                Ok(Written::Anew(file))
            }
            Err(fault) => {
                remove_part(&self.rt, &part);
                Err(fault)
            }
        }
    }

    fn takes_name(&self, part: &Part, real: &str) -> Result<(), StoreFault> {
        part.file.sync_all()?;
        lock(&part.file)?;
        fs::rename(&self.rt, part.name.as_str(), real)?;
        Ok(())
    }

    // From here on this is the file.
    fn adopt(&mut self, found: Found) {
        let Found {
            file,
            node,
            real,
            folder,
        } = found;
        self.file = file;
        self.node = node;
        self.real = real;
        self.folder = folder;
        self.is_unsettled = true;
    }

    // The file that is locked must be the one that the name leads to.
    fn is_still_named(&self) -> Result<(), StoreFault> {
        if self.is_named() {
            return Ok(());
        }
        Err(StoreFault::System(io::Error::new(
            io::ErrorKind::NotFound,
            "the name was moved meanwhile",
        )))
    }

    fn tell_anew(&self) {
        let (name, real) = (self.name.as_str(), self.real.as_str());
        let text = format!(in self.rt.alloc();
            "store: {name} was moved, replaced or removed; written anew at {real}"
        );
        self.tell(Level::Error, text);
    }

    fn tell_lost(&self) {
        let name = self.name.as_str();
        let text = format!(in self.rt.alloc();
            "store: {name} was moved, replaced or removed, and the file that was saved can't be read any more; saves go to what stands there now"
        );
        self.tell(Level::Error, text);
    }

    fn tell_away(&mut self, fault: &StoreFault) {
        let alloc = self.rt.alloc();
        let name = self.name.as_str();
        let why = match fault.sentence(alloc) {
            Ok(why) => why,
            Err(_) => return,
        };
        let why = why.as_str();
        let text = format!(in alloc;
            "store held: {name} was moved, replaced or removed, and can't be written anew: {why}"
        );
        self.fail(text);
    }
}

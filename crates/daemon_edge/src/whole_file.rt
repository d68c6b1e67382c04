//! Files that are replaced whole.

use crate::links::target_of;
use crate::paths::folder_in;
use std::alloc::Global;
use std::fs::{self, OpenFile, OpenOptions, Permissions};
use std::io::{self, ErrorKind, Write};
use std::os::unix::fs::OpenOptionsExt;
use std::rt::Files as SystemFiles;

/// How often a name for the file beside is tried.
const TRIES: u32 = 4;

/// Replaces files: what is written goes to a new file in the folder of the old one, under a name of its own, which then takes its
/// name. So a reader never sees a part, and whatever stands at another name stays as it is. Where the name is a link, what it
/// leads to is replaced.
#[derive(Drop)]
pub struct WholeFile<R: SystemFiles + Drop> {
    alloc: Global,
    rt: R,
    // The mode of a file that replaces none, but for what the process masks.
    mode: u32,
    // It is brought to the disk before it takes its name.
    lasting: bool,
    // How many names were tried.
    tried: u64,
}

impl<R: SystemFiles + Drop> WholeFile<R> {
    /// For what all may read, and what may be lost with the machine's power.
    pub fn passing(alloc: Global, rt: R) -> WholeFile<R> {
        WholeFile {
            alloc,
            rt,
            mode: 0o666,
            lasting: false,
            tried: 0,
        }
    }

    /// For what this user alone reads, and what is to last.
    pub fn lasting(alloc: Global, rt: R) -> WholeFile<R> {
        WholeFile {
            alloc,
            rt,
            mode: 0o600,
            lasting: true,
            tried: 0,
        }
    }

    /// Puts a file with these bytes at a name; a file that stood there gives it its mode. What fails changes nothing there.
    pub fn put(&mut self, name: &str, bytes: &[u8]) -> io::Result<()> {
        let target = target_of(self.alloc, &self.rt, name)?;
        let target = target.as_str();
        let (beside, mut file) = self.beside(target)?;
        let beside = beside.as_str();
        let put = self.fill_and_rename(&mut file, beside, target, bytes);
        if put.is_err() {
            let _ = fs::remove_file(&self.rt, beside);
        }
        put
    }

    // A new file beside a name, and the name that it got.
    fn beside(&mut self, target: &str) -> io::Result<(String, R::File)> {
        let process = libc::getpid();
        for _ in 0..TRIES {
            self.tried = self.tried.saturating_add(1);
            let n = self.tried;
            let name = format!(in self.alloc; "{target}.{process}-{n}.new")?;
            let mut how = OpenOptions::new();
            how.write(true).create_new(true).mode(self.mode);
            match how.open(&self.rt, name.as_str()) {
                Ok(file) => return Ok((name, file)),
                Err(error) if error.kind() == ErrorKind::AlreadyExists => {}
                Err(error) => return Err(error),
            }
        }
        Err(ErrorKind::AlreadyExists.into())
    }

    // Writes a new file and gives it its name; where it is to last, the folder is brought to the disk too.
    fn fill_and_rename(
        &self,
        file: &mut R::File,
        beside: &str,
        target: &str,
        bytes: &[u8],
    ) -> io::Result<()> {
        self.fill(file, target, bytes)?;
        fs::rename(&self.rt, beside, target)?;
        if self.lasting {
            let folder = fs::open(&self.rt, folder_in(target))?;
            return folder.sync_all();
        }
        Ok(())
    }

    // Writes a new file, which gets the mode of the one that it is to replace.
    fn fill(&self, file: &mut R::File, target: &str, bytes: &[u8]) -> io::Result<()> {
        if let Some(mode) = mode_at(&self.rt, target) {
            file.set_permissions(mode)?;
        }
        file.write_all(bytes)?;
        if self.lasting {
            return file.sync_all();
        }
        Ok(())
    }
}

// The mode of the file at a name, if one stands there.
fn mode_at<R: SystemFiles>(rt: &R, name: &str) -> Option<Permissions> {
    match fs::symlink_metadata(rt, name) {
        Ok(found) if found.is_file() => Some(found.permissions()),
        _ => None,
    }
}

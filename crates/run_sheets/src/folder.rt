//! The folder that the files of the runs lie in.

use crate::Fault;
use ads_base::Octets;
use ads_edge::RealFiles;
use ads_outside::{Files, Got};
use std::alloc::Global;
use std::env;

/// Files of one folder, by their names in it.
#[derive(Drop)]
pub struct Folder {
    alloc: Global,
    files: RealFiles<HostRuntime>,
    path: String,
}

impl Folder {
    /// The folder that the first word of the process names, or else the one in which it runs.
    pub fn new(rt: &HostRuntime) -> Result<Folder, Fault> {
        let path = match env::args(rt)?.nth(1) {
            Some(word) => format!(in rt.alloc(); "{word}/")?,
            None => String::new(rt.alloc()),
        };
        Ok(Folder {
            alloc: rt.alloc(),
            files: RealFiles::new(rt.alloc(), rt.clone()?)?,
            path,
        })
    }

    /// The bytes of a file.
    pub fn read(&mut self, name: &str) -> Result<Octets, Fault> {
        let path = &self.path;
        let path = format!(in self.alloc; "{path}{name}")?;
        match self.files.read(path.as_str()) {
            Got::Bytes(bytes) => Ok(bytes),
            Got::TooLong => Err(Fault::Off("a file is too long")),
            Got::Failed => Err(Fault::Off("a file cannot be read")),
            Got::Memory => Err(Fault::Memory),
        }
    }
}

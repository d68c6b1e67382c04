//! The status file.

use crate::WholeFile;
use ads_base::NoMemory;
use cli_words::Text;
use daemon_outside::Beacon;
use std::alloc::Global;
use std::io;
use std::rt::Files as SystemFiles;

/// A file with the state that was told last, which is replaced whole each time. Without a name nothing is written.
#[derive(Drop)]
pub struct StatusFile<R: SystemFiles + Drop> {
    file: WholeFile<R>,
    name: Option<Text>,
}

impl<R: SystemFiles + Drop> StatusFile<R> {
    /// The file with this name, if there is to be one.
    pub fn new(alloc: Global, rt: R, name: &Option<Text>) -> Result<StatusFile<R>, NoMemory> {
        let name = match name {
            Some(name) => Some(Text::copy_of(alloc, name.as_str())?),
            None => None,
        };
        Ok(StatusFile {
            file: WholeFile::passing(alloc, rt),
            name,
        })
    }
}

impl<R: SystemFiles + Drop> Beacon for StatusFile<R> {
    fn tell(&mut self, state: &[u8]) -> io::Result<()> {
        match &self.name {
            Some(name) => self.file.put(name.as_str(), state),
            None => Ok(()),
        }
    }
}

//! The last accepted description, which is kept beside the store.

use ads_base::{NoMemory, Octets};
use ads_edge::RealFiles;
use ads_outside::{Files, Got};
use cli_words::Text;
use daemon_edge::WholeFile;
use daemon_words::Setup;
use std::alloc::Global;
use std::{fs, io};
use symbol_file::{DescFault, read};

/// The file in which each accepted description is kept.
#[derive(Drop)]
pub struct KeptDescription {
    name: Text,
    file: WholeFile<HostRuntime>,
}

impl KeptDescription {
    /// That of a setup, if descriptions are kept.
    pub(crate) fn of_setup(
        rt: &HostRuntime,
        setup: &Setup,
    ) -> Result<Option<KeptDescription>, NoMemory> {
        match setup.kept_name(rt.alloc())? {
            Some(name) => {
                let file = WholeFile::lasting(rt.alloc(), *rt);
                Ok(Some(KeptDescription { name, file }))
            }
            None => Ok(None),
        }
    }

    /// Keeps a description in the place of the one before.
    pub(crate) fn keep(&mut self, bytes: &[u8]) -> io::Result<()> {
        self.file.put(self.name.as_str(), bytes)
    }
}

/// The description that was kept in the file of this name; None where there is none, or it can't be read.
pub(crate) fn kept_text(rt: &HostRuntime, name: &str) -> Result<Option<Octets>, NoMemory> {
    if !is_file(rt, name) {
        return Ok(None);
    }
    let mut files = RealFiles::new(rt.alloc(), *rt)?;
    match files.read(name) {
        Got::Bytes(text) => Ok(Some(text)),
        Got::TooLong | Got::Failed => Ok(None),
        Got::Memory => Err(NoMemory),
    }
}

// Whether a file stands there: a pipe would be waited for.
fn is_file(rt: &HostRuntime, name: &str) -> bool {
    match fs::metadata(rt, name) {
        Ok(found) => found.is_file(),
        Err(_) => false,
    }
}

/// The rule and the item that a description breaks, for so many signals; rule 0 for no TOML, and None where it can't be read.
pub(crate) fn rule_of(
    alloc: Global,
    text: Option<&[u8]>,
    signals: u32,
) -> Result<Option<(u8, u32)>, NoMemory> {
    let Some(text) = text else {
        return Ok(None);
    };
    match read(alloc, text, signals)? {
        Ok(_) => Ok(None),
        Err(DescFault::Syntax) => Ok(Some((0, 0))),
        Err(DescFault::Rule { number, item }) => Ok(Some((number, item))),
    }
}

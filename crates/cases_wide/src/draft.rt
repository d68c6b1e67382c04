//! A run while its lines are read.

use crate::fault::Fault;
use crate::folder::Folder;
use ads_base::Octets;
use std::alloc::Global;
use type_layout::Rights;

/// The script of a run, and the log that must be printed of it.
#[derive(Drop)]
pub struct Draft {
    pub script: Octets,
    pub out: Octets,
    /// The right of each machine without a route.
    pub others: Option<Rights>,
    /// Lines of text belong to the log.
    is_out: bool,
}

impl Draft {
    /// Nothing is said yet.
    pub fn new(alloc: Global) -> Draft {
        Draft {
            script: Octets::new(alloc),
            out: Octets::new(alloc),
            others: None,
            is_out: false,
        }
    }

    /// Reads one line. A line `from` takes the bytes of a file of the folder into the script.
    pub fn take(&mut self, alloc: Global, folder: &mut Folder, line: &str) -> Result<(), Fault> {
        let (key, rest) = line.split_once(' ').unwrap_or((line, ""));
        match key {
            "" | "#" => Ok(()),
            "script" => {
                self.is_out = false;
                Ok(())
            }
            "out" => {
                self.is_out = true;
                Ok(())
            }
            "others" => self.put_others(rest),
            "|" => self.put_line(alloc, rest),
            "from" => {
                let bytes = folder.read(rest)?;
                Ok(self.script.put(alloc, bytes.as_slice())?)
            }
            _ => Err(Fault::Off("no such line")),
        }
    }

    fn put_others(&mut self, word: &str) -> Result<(), Fault> {
        let rights = match word {
            "read" => Rights::Read,
            "write" => Rights::Write,
            _ => return Err(Fault::Off("others have no such right")),
        };
        self.others = Some(rights);
        Ok(())
    }

    fn put_line(&mut self, alloc: Global, line: &str) -> Result<(), Fault> {
        let text = if self.is_out {
            &mut self.out
        } else {
            &mut self.script
        };
        text.put(alloc, line.as_bytes())?;
        text.push(alloc, b'\n')?;
        Ok(())
    }
}

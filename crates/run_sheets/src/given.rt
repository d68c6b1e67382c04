//! What a run is given.

use crate::{Came, LinkCase, StoreCase, WireCase};
use ads_base::{Calls, NoMemory, Octets};
use ads_outside::NamedFiles;
use std::alloc::Global;
use std::io::ErrorKind;
use std::mem;

/// The words of a run, its files, and what else it is handed in, with the texts that must come of the wire, the link and the stores.
#[derive(Drop)]
pub struct Given {
    pub words: Vec<String>,
    /// Why the words of the process cannot be read.
    pub unreadable: Option<ErrorKind>,
    pub files: NamedFiles,
    /// The readings that fail, and the pieces whose writing fails, counted from 1.
    pub failing_reads: Calls,
    pub failing_puts: Calls,
    /// How many bytes the failing pieces leave, in their order.
    pub parts: Calls,
    /// Whether the program's three signals are handed in, or none.
    pub has_signals: bool,
    /// What must be told on standard error.
    pub told: Octets,
    pub wire: WireCase,
    pub link: LinkCase,
    pub stores: StoreCase,
}

impl Given {
    /// No words, and nothing that fails.
    pub fn new(alloc: Global) -> Given {
        Given {
            words: Vec::new(alloc),
            unreadable: None,
            files: NamedFiles::new(alloc),
            failing_reads: Calls::new(alloc),
            failing_puts: Calls::new(alloc),
            parts: Calls::new(alloc),
            has_signals: true,
            told: Octets::new(alloc),
            wire: WireCase::new(alloc),
            link: LinkCase::new(alloc),
            stores: StoreCase::new(alloc),
        }
    }

    /// Takes out what must come, beside this status and this text.
    pub fn take_wanted(
        &mut self,
        alloc: Global,
        status: u8,
        out: Octets,
    ) -> Result<Came, NoMemory> {
        let left = self.stores.take_left(alloc)?;
        Ok(Came {
            status,
            out,
            told: mem::replace(&mut self.told, Octets::new(alloc)),
            log: mem::replace(&mut self.wire.log, Octets::new(alloc)),
            talk: mem::replace(&mut self.link.talk, Octets::new(alloc)),
            left,
            rows: mem::replace(&mut self.stores.rows, Octets::new(alloc)),
        })
    }
}

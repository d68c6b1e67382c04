//! A case while its lines are read.

use crate::{Fault, Given};
use ads_base::Octets;
use ads_outside::{Event, NamedFile};
use std::alloc::Global;
use std::mem;

/// What the lines of text that come belong to.
#[derive(Drop)]
pub enum Target {
    Nothing,
    File(Octets),
    /// The description that a wire tells anew.
    Reload,
    Output,
    /// What must be told on standard error.
    Told,
    Log,
    /// What must have been sent over the link.
    Talk,
    /// The rows that the keeper must have.
    Rows,
}

/// What the lines so far have said.
#[derive(Drop)]
pub struct Draft {
    pub given: Given,
    pub status: Option<u8>,
    /// Whether a comment says what the run shows.
    pub has_comment: bool,
    /// The text that is being written down, and whose it is.
    pub text: Octets,
    target: Target,
    out: Option<Octets>,
}

/// What a run is given, and the status and the text that must come.
#[derive(Drop)]
pub struct Case {
    pub given: Given,
    pub status: u8,
    pub out: Octets,
}

impl Draft {
    /// Nothing is said yet.
    pub fn new(alloc: Global) -> Draft {
        Draft {
            given: Given::new(alloc),
            status: None,
            has_comment: false,
            text: Octets::new(alloc),
            target: Target::Nothing,
            out: None,
        }
    }

    /// Lines of text belong to this from now on; those so far are whole.
    pub fn begin(&mut self, alloc: Global, target: Target) -> Result<(), Fault> {
        let bytes = mem::replace(&mut self.text, Octets::new(alloc));
        match mem::replace(&mut self.target, target) {
            Target::Nothing => {
                if bytes.len() > 0 {
                    return Err(Fault::Off("text that belongs to no file and is no output"));
                }
            }
            Target::File(name) => {
                let file = NamedFile { name, bytes };
                self.given.files.push(alloc, file)?
            }
            Target::Reload => self.given.wire.events.push(alloc, Event::Reload(bytes))?,
            Target::Output => self.out = Some(bytes),
            Target::Told => self.given.told = bytes,
            Target::Log => self.given.wire.log = bytes,
            Target::Talk => self.given.link.talk = bytes,
            Target::Rows => self.given.stores.rows = bytes,
        }
        Ok(())
    }

    /// The case that all lines describe. The draft says nothing then.
    pub fn finish(&mut self, alloc: Global) -> Result<Case, Fault> {
        self.begin(alloc, Target::Nothing)?;
        if !self.has_comment {
            return Err(Fault::Off("no comment says what the run shows"));
        }
        let Some(status) = self.status else {
            return Err(Fault::Off("no line says which status must come"));
        };
        let Some(out) = mem::replace(&mut self.out, None) else {
            return Err(Fault::Off("no line says what must be printed"));
        };
        self.status = None;
        self.has_comment = false;
        let given = mem::replace(&mut self.given, Given::new(alloc));
        Ok(Case { given, status, out })
    }
}

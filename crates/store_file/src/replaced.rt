//! What a new description leaves out.

use crate::kept::Kept;
use crate::slots::MAX_BODY;
use ads_base::{ListOf, NoMemory, Octets};
use daemon_entries::unfit_names;
use daemon_log::Level;

/// The greatest number of bodies that wait for a copy.
const MOST_WAITING: usize = 20;

impl Kept {
    /// A new description was accepted: of what the body before it has and the body now has not, a copy is made at once, and of what
    /// stands and was not served. Where a body was not had, the file is copied.
    pub(crate) fn replace(&mut self, before: &Option<Octets>, now: &Option<Octets>) {
        self.copy_unserved(before);
        match self.left_by(before, now) {
            Ok(false) => return,
            Ok(true) => {}
            Err(NoMemory) => {
                self.wants_copy = true;
                self.tell(
                    Level::Warning,
                    String::from_str(
                        self.rt.alloc(),
                        "store: out of memory, so which entries fit the description is not known",
                    ),
                );
            }
        }
        if let Err(fault) = self.copy_waiting() {
            self.hold(&fault);
        }
    }

    // What stands in the file and was not served before the new description is copied: the next save may have it again, with
    // another value.
    fn copy_unserved(&mut self, before: &Option<Octets>) {
        let Some(body) = before else {
            return;
        };
        if let Err(fault) = self.copy_before(body.as_slice()) {
            self.wants_copy = true;
            self.hold(&fault);
        }
    }

    // Whether a body before leaves a copy to be made, which then waits.
    fn left_by(&mut self, before: &Option<Octets>, now: &Option<Octets>) -> Result<bool, NoMemory> {
        let Some(before) = before else {
            return Err(NoMemory);
        };
        if let Some(now) = now {
            let names = unfit_names(self.rt.alloc(), before.as_slice(), now.as_slice())?;
            if names.len() == 0 {
                return Ok(false);
            }
            self.tell_unfit(names.as_slice());
        }
        self.wait(before.as_slice())?;
        Ok(true)
    }

    // A body waits for its copy; where there is no room, the oldest one goes, whose copy would go too. Of one that no store takes
    // the file is copied.
    fn wait(&mut self, body: &[u8]) -> Result<(), NoMemory> {
        if body.len() > MAX_BODY {
            self.wants_copy = true;
            return Ok(());
        }
        let body = Octets::copy_of(self.rt.alloc(), body)?;
        if self.waiting.len() >= MOST_WAITING {
            let _ = self.waiting.remove(0);
        }
        self.waiting.push(body)?;
        Ok(())
    }
}

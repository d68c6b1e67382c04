//! What becomes of events and of saves, told to the log.

use ads_base::{NoMemory, Octets};
use ads_outside::Event;
use ads_served::Served;
use daemon_edge::moment_now;
use daemon_log::{Noticeboard, Reloaded, SaveTold, Served as Counts};
use keep_loop::Told;
use server_core::{Core, Outcome, Sources};
use std::alloc::Global;
use store_file::StoreHandle;
use symbol_file::DescFault;

/// Posts what becomes of descriptions, the counts and what becomes of each save on the log's board; and hands bodies at new descriptions
/// to the store's file, where there is one.
#[derive(Drop)]
pub(crate) struct LogTold {
    pub(crate) rt: HostRuntime,
    pub(crate) board: Noticeboard,
    pub(crate) store: Option<StoreHandle>,
    /// The body that was served before the new description that comes, where there is a store.
    pub(crate) before: Option<Octets>,
}

impl<S: Sources> Told<Core<S>> for LogTold {
    fn comes(&mut self, alloc: Global, core: &Core<S>, event: &Event) {
        if let Event::Reload(_) = event {
            if self.store.is_some() {
                self.before = body_now(alloc, core);
            }
        }
    }

    fn came(&mut self, alloc: Global, core: &Core<S>, event: &Event, outcome: &Outcome) {
        match outcome {
            Outcome::Done => {}
            Outcome::ReloadOk(version) => {
                self.board.post_reload(Reloaded::Accepted(*version));
                self.replace(alloc, core);
            }
            Outcome::ReloadRefused(fault) => self.board.post_reload(refused(fault)),
        }
        if let Event::Tick(_) = event {
            self.post_counts(core);
        }
    }

    fn saved(&mut self, bytes: u64) {
        self.board
            .post_save(SaveTold::Saved(bytes, moment_now(&self.rt)));
    }

    fn failed(&mut self) {
        self.board.post_save(SaveTold::Failed);
    }

    fn no_memory(&mut self) {
        self.board.post_save(SaveTold::NoMemory);
    }

    fn over_limit(&mut self) {
        self.board.post_save(SaveTold::OverLimit);
    }
}

impl LogTold {
    // A new description was accepted: the bodies before it and behind it go to the store's file.
    fn replace<S: Sources>(&mut self, alloc: Global, core: &Core<S>) {
        if let Some(store) = &self.store {
            store.replaced(&self.before, &body_now(alloc, core));
        }
        self.before = None;
    }

    fn post_counts<S: Sources>(&mut self, core: &Core<S>) {
        let counts = core.summary();
        self.board.post_counts(Counts {
            requests: counts.requests,
            replies: counts.replies,
            samples: counts.samples,
        });
    }
}

// The body that is served; None where memory is wanting for it.
fn body_now<S: Sources>(alloc: Global, core: &Core<S>) -> Option<Octets> {
    match core.body(alloc) {
        Ok(body) => Some(body),
        Err(NoMemory) => None,
    }
}

fn refused(fault: &DescFault) -> Reloaded {
    match fault {
        DescFault::Syntax => Reloaded::Syntax,
        DescFault::Rule { number, item } => Reloaded::Breaks(*number, *item),
    }
}

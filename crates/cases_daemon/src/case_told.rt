//! What becomes of events and of saves, told to the log of a case.

use ads_outside::Event;
use daemon_log::{Noticeboard, Reloaded, SaveTold, Served};
use keep_loop::Told;
use server_core::{Core, Outcome, Sources};
use std::alloc::Global;
use symbol_file::DescFault;

/// Posts what becomes of descriptions, the counts and what becomes of each save on the log's board. No time passes in a case.
#[derive(Drop)]
pub struct CaseTold {
    pub board: Noticeboard,
}

impl<S: Sources> Told<Core<S>> for CaseTold {
    fn came(&mut self, _alloc: Global, core: &Core<S>, event: &Event, outcome: &Outcome) {
        match outcome {
            Outcome::Done => {}
            Outcome::ReloadOk(version) => self.board.post_reload(Reloaded::Accepted(*version)),
            Outcome::ReloadRefused(fault) => self.board.post_reload(refused(fault)),
        }
        if let Event::Tick(_) = event {
            let counts = core.summary();
            self.board.post_counts(Served {
                requests: counts.requests,
                replies: counts.replies,
                samples: counts.samples,
            });
        }
    }

    fn saved(&mut self, bytes: u64) {
        self.board.post_save(SaveTold::Saved(bytes, 0));
    }

    fn failed(&mut self) {
        self.board.post_save(SaveTold::Failed);
    }

    fn no_memory(&mut self) {
        self.board.post_save(SaveTold::NoMemory);
    }

    fn over_limit(&mut self) {
        self.board.post_save(SaveTold::OverLimit);
    }
}

fn refused(fault: &DescFault) -> Reloaded {
    match fault {
        DescFault::Syntax => Reloaded::Syntax,
        DescFault::Rule { number, item } => Reloaded::Breaks(*number, *item),
    }
}

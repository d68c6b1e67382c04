//! Sum commands: many reads, writes or read-writes, or additions or deletions of notifications, in one, over any service of the
//! single commands.
#![tactic(auto)]

mod answers;
mod form;
mod groups;
mod heads;
mod lent;
mod part_service;
mod refusals;
mod room;
mod run;
mod running;

pub use answers::number_in;
pub use groups::{SUM_ADD, SUM_DELETE, SUM_SHORT_READ, SUM_TOLD_READ};
pub use part_service::PartService;
pub use run::run_sum;

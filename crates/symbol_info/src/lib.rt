//! Symbol entries: what the symbol upload lists, and what the extended info by name gives.
#![tactic(auto)]

mod entry;
mod reading;
mod writing;

pub use entry::Entry;
pub use reading::read_entry;
pub use writing::put_entry;

//! Files of runs: what a run of a program is given, and what must come of it; read, tried and told.
#![tactic(auto)]

mod came;
mod draft;
mod fault;
mod folder;
mod given;
mod joined;
mod line;
mod link_case;
mod new_events;
mod report;
mod runs;
mod store_case;
mod tally;
mod told;
mod two_wires;
mod wire_case;
mod wire_log;

pub use came::Came;
pub use fault::Fault;
pub use given::Given;
pub use link_case::{LinkCase, talk_of};
pub use new_events::open_new;
pub use report::main_of;
pub use runs::Runs;
pub use store_case::{StoreCase, rows_of};
pub use two_wires::CaseWire;
pub use wire_case::WireCase;
pub use wire_log::log_text;

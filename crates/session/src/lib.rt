//! The session of one client: what it sends is cut into frames, and each is answered from the ports.
#![tactic(auto)]

mod accesses;
mod asker;
mod checks;
mod data_frame;
mod examined;
mod framing;
mod granting;
mod groups;
mod lending;
mod looking;
mod meaning;
mod notes;
mod notes_ended;
mod notes_group;
mod notes_groups;
mod notes_head;
mod plain;
mod reading;
mod refusing;
mod reloaded;
mod replies;
mod requests;
mod room;
mod run;
mod session;
mod single;
mod sums;
mod take;
mod taken;
mod tick;
mod tick_bytes;
mod tick_checks;
mod told;
mod watching;
mod whole;
mod writing;

pub use notes::{FrameList, NoteFrame};
pub use session::Session;
pub use taken::Taken;
pub use told::Told;

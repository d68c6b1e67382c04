//! Type entries: what the type upload lists.
#![tactic(auto)]

mod alone;
mod entry;
mod fields;
mod layouts;
mod members;
mod places;
mod reading;
mod skipping;
mod writing;

pub use alone::{put_type_alone, put_type_at};
pub use entry::TypeEntry;
pub use reading::read_type;
pub use writing::put_types;

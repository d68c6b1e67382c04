//! The file of a store under a daemon: its lock, its name, the copies that are made of it, and what is damaged in it.
#![tactic(auto)]

mod beside;
mod copies;
mod copy_name;
mod fault;
mod file_kind;
mod kept;
mod laws;
mod looking;
mod mending;
mod node;
mod replaced;
mod slots;
mod starting;
mod store_file;
mod system;
mod told;
mod writes;

pub use copy_name::{Rank, goes, rank_of};
pub use fault::StoreFault;
pub use file_kind::{FileKind, kind_of};
pub use laws::a_save_tells_its_body;
pub use slots::{SlotDamage, damage_of, standing_body};
pub use store_file::{StoreFile, StoreHandle};
pub use told::tell_unfit;
pub use writes::{body_written, opens_gate};

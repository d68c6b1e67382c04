//! A store of values in one file that a stop of the machine leaves whole: the trait of a disk, a disk in memory, the store.
#![tactic(auto)]

mod disk;
mod disk_open;
mod disk_read;
mod entries;
mod gate;
mod mem_disk;
mod opening;
mod past_write;
mod save_slot;
mod save_steps;
mod saved;
mod slot_text;
mod standing_slot;
mod step_fault;
mod stop;
mod store;
mod store_open;
mod stored_entry;
mod synced;
mod written;
mod wrote;

pub use disk::Disk;
pub use disk_open::DiskOpen;
pub use disk_read::DiskRead;
pub use entries::Entries;
pub use mem_disk::MemDisk;
pub use saved::Saved;
pub use stop::Stop;
pub use store::Store;
pub use store_open::StoreOpen;
pub use stored_entry::StoredEntry;
pub use synced::Synced;
pub use wrote::Wrote;

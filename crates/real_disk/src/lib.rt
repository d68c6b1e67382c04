//! A file on a disk of the system.
#![tactic(auto)]

mod real_disk;

pub use real_disk::RealDisk;

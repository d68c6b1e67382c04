//! The values that every crate shares: bytes, addresses, lists, numbers on the wire, and want of memory.
#![tactic(auto)]

mod ams_addr;
mod calls;
mod decimal;
mod fields;
mod list_of;
mod net_id;
mod no_memory;
mod octets;
mod peer;
mod steps;

pub use ams_addr::AmsAddr;
pub use calls::Calls;
pub use decimal::{read_decimal, split_decimal};
pub use fields::{get16, get32, get64, put16, put32, put64};
pub use list_of::ListOf;
pub use net_id::NetId;
pub use no_memory::NoMemory;
pub use octets::Octets;
pub use peer::Peer;
pub use steps::Steps;

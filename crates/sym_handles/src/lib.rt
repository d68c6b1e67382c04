//! Symbol handles: a client is granted one by a symbol's name (index group 0xF003) and releases it (0xF006).
#![tactic(auto)]

mod entries;
mod handles;
mod records;

pub use handles::{Full, Handles, MAX_LIVE};

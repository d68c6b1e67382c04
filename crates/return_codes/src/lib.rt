//! The return codes of ADS.
#![tactic(auto)]

mod code;
mod laws;

pub use code::Code;
pub use laws::codes_and_numbers_agree;

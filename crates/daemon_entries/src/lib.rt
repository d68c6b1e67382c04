//! The entries of a store's body: how many there are, and which of them others leave out.
#![tactic(auto)]

mod counting;
mod leaving;
mod listing;

pub use counting::count_in;
pub use leaving::{left_out, unfit_names};
pub use listing::with_entries;

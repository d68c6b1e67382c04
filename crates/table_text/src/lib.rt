//! Tables of TOML: a value is set, and a plain table is printed as the one text that is defined.
#![tactic(auto)]

mod member;
mod order;
mod text;

pub use member::{push_table, set_array, set_member, set_number, set_text};
pub use order::keys_ascend;
pub use text::text_of_table;

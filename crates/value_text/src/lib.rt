//! The values of symbols as text, and text read as values.
#![tactic(auto)]

mod form;
mod laws;
mod numbers;
mod quotes;
mod reading;
mod writing;

pub use laws::{
    a_full_string_is_refused, a_text_has_one_value, a_text_is_written_again, a_value_is_read_again,
    values_are_found,
};
pub use reading::from_text;
pub use writing::to_text;

//! The rules of a description, decided over the records of its document.
#![tactic(auto)]

mod building;
mod decimal_lens;
mod dimensions;
mod enum_values;
mod extents;
mod known_types;
mod member_rules;
mod named_shapes;
mod names;
mod nets;
mod numbers;
mod places;
mod port_rules;
mod route_rules;
mod seen;
mod seen_numbers;
mod shape_building;
mod shapes;
mod size_rules;
mod structure;
mod symbol_contents;
mod symbol_names;
mod symbol_places;
mod symbol_signals;
mod symbol_types;
mod taken;
mod type_building;
mod type_rules;
mod type_text_lens;
mod uploads;
mod value_rules;
mod verdict;
mod words;

pub use enum_values::{first_bytes, unsigned_of};
pub use known_types::{KnownTypes, text_size};
pub use nets::read_net;
pub use numbers::natural_of;
pub use shape_building::small_shape;
pub use size_rules::read_types;
pub use symbol_contents::read_hex;
pub use verdict::{BrokenRule, broken_at, fault_in_ports, fault_in_types, fault_in_uploads};
pub use words::{read_area, read_rights};

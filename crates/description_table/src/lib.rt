//! The TOML table of a description as plain records that borrow it.
#![tactic(auto)]

mod document;
mod fields;
mod keys;
mod members;
mod parts;
mod ports;
mod routes;
mod symbols;
mod tables;
mod types;
mod values;
mod writers;
mod written;

pub use document::document_in;
pub use written::{
    Document, WrittenEnumeration, WrittenMember, WrittenPort, WrittenRoute, WrittenStructure,
    WrittenSymbol, WrittenType, WrittenValue,
};

//! The calls that a case may name, a library a line.

mod descriptions;
mod layout;
mod tables;
mod type_entries;

use ads_base::NoMemory;
use case_sheets::{Answer, Args, Fault, Libraries};
use std::alloc::Global;

/// No call here has a history.
#[derive(Drop)]
pub struct DescriptionCalls {}

impl Libraries for DescriptionCalls {
    fn new(_alloc: Global) -> Result<Self, NoMemory> {
        Ok(DescriptionCalls {})
    }

    fn make(
        &mut self,
        alloc: Global,
        library: &str,
        call: &str,
        args: &mut Args<'_>,
        answer: &mut Answer,
    ) -> Result<(), Fault> {
        match library {
            "symbol_file" => descriptions::make(alloc, call, args, answer),
            "symbol_table" => tables::make(alloc, call, args, answer),
            "type_layout" => layout::make(alloc, call, args, answer),
            "type_upload" => type_entries::make(alloc, call, args, answer),
            _ => Err(Fault::NoCall),
        }
    }
}

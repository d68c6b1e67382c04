//! Parts of a symbol's and of a port's table.
ghost use Rattle.std.specs.Prelude.{◌≡◌, option_map};
ghost use Rattle.toml.specs.View.{table_view};
ghost use Rattle.description_table.specs.Parts.{place_in, flags_in, facts_in, sizes_in};
ghost use Rattle.description_table.specs.PartViews.{place_view, flags_view, facts_view, sizes_view};

use crate::fields::{
    optional_flag, optional_integer, optional_text, required_integer, required_text,
};
use toml::Table;

/// Name and type of a symbol, and where it lies.
#[derive(Clone, Copy)]
pub struct SymbolPlace<'a> {
    pub name: &'a [u8],
    pub kind: &'a [u8],
    pub area: &'a [u8],
    pub offset: i64,
}

/// Comment and flags of a symbol.
#[derive(Clone, Copy)]
pub struct SymbolFlags<'a> {
    pub comment: &'a [u8],
    pub persistent: bool,
    pub read_only: bool,
}

/// Number, name and version of a port.
#[derive(Clone, Copy)]
pub struct PortFacts<'a> {
    pub number: i64,
    pub name: &'a [u8],
    pub major: i64,
    pub minor: i64,
    pub build: i64,
}

/// The sizes of a port's areas.
#[derive(Clone, Copy)]
pub struct AreaSizes {
    pub inputs: i64,
    pub outputs: i64,
    pub memory: i64,
    /// The size under the key `data`.
    pub process: i64,
}

pub fn place_in(table: &Table) -> Option<SymbolPlace<'_>>
    ensures { option_map place_view result ≡ place_in (table_view table.now) }
{
    let name = required_text(table, "name")?;
    let kind = required_text(table, "type")?;
    let area = required_text(table, "area")?;
    let offset = required_integer(table, "offset")?;
    Some(SymbolPlace {
        name,
        kind,
        area,
        offset,
    })
}

pub fn flags_in(table: &Table) -> Option<SymbolFlags<'_>>
    ensures { option_map flags_view result ≡ flags_in (table_view table.now) }
{
    let comment = optional_text(table, "comment")?;
    let persistent = optional_flag(table, "persistent")?;
    let read_only = optional_flag(table, "read_only")?;
    Some(SymbolFlags {
        comment,
        persistent,
        read_only,
    })
}

pub fn facts_in(table: &Table) -> Option<PortFacts<'_>>
    ensures { option_map facts_view result ≡ facts_in (table_view table.now) }
{
    let number = required_integer(table, "port")?;
    let name = required_text(table, "name")?;
    let major = required_integer(table, "major")?;
    let minor = required_integer(table, "minor")?;
    let build = required_integer(table, "build")?;
    Some(PortFacts {
        number,
        name,
        major,
        minor,
        build,
    })
}

pub fn sizes_in(table: &Table) -> Option<AreaSizes>
    ensures { option_map sizes_view result ≡ sizes_in (table_view table.now) }
{
    let inputs = optional_integer(table, "inputs")?;
    let outputs = optional_integer(table, "outputs")?;
    let memory = optional_integer(table, "memory")?;
    let process = optional_integer(table, "data")?;
    Some(AreaSizes {
        inputs,
        outputs,
        memory,
        process,
    })
}

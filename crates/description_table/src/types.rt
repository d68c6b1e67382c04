//! The types of a document.
ghost use Rattle.std.specs.Prelude.{◌≡◌, option_map, IfOk};
ghost use Rattle.toml.specs.View.{table_view};
ghost use Rattle.spec_rules.specs.Written as rules;
ghost use Rattle.spec_rules.specs.Tables.{type_in, structure_in, enumeration_in};
ghost use Rattle.description_table.specs.Views.{type_view, structure_view, enumeration_view};

use crate::fields::{required_text, value_at};
use crate::keys::only_keys;
use crate::tables::{FromTable, required_tables};
use crate::written::{WrittenEnumeration, WrittenStructure, WrittenType};
use ads_base::NoMemory;
use std::alloc::Global;
use toml::Table;

impl<'a> FromTable<'a> for WrittenType<'a> {
    ghost Written = { rules.WrittenType };

    ghost written_in = { type_in };

    ghost written_view = { type_view };

    fn from_table(alloc: Global, table: &'a Table, second: bool) -> Result<Option<Self>, NoMemory> {
        kind_in(alloc, table, second)
    }
}

#[tactic(auto, unfolding(spec_rules::specs::Tables::type_in))]
fn kind_in<'a>(
    alloc: Global,
    table: &'a Table,
    second: bool,
) -> Result<Option<WrittenType<'a>>, NoMemory>
    ensures { IfOk result (λ found. option_map type_view found ≡ type_in second (table_view table.now)) }
{
    if second && value_at(table, "base").is_some() {
        enumeration_type_in(alloc, table)
    } else {
        structure_type_in(alloc, table)
    }
}

fn structure_type_in<'a>(
    alloc: Global,
    table: &'a Table,
) -> Result<Option<WrittenType<'a>>, NoMemory>
    ensures { IfOk result (λ found. option_map type_view found ≡ structure_in (table_view table.now)) }
{
    match structure_in(alloc, table)? {
        None => Ok(None),
        Some(structure) => Ok(Some(WrittenType::Structure(structure))),
    }
}

fn enumeration_type_in<'a>(
    alloc: Global,
    table: &'a Table,
) -> Result<Option<WrittenType<'a>>, NoMemory>
    ensures { IfOk result (λ found. option_map type_view found ≡ enumeration_in (table_view table.now)) }
{
    match enumeration_in(alloc, table)? {
        None => Ok(None),
        Some(enumeration) => Ok(Some(WrittenType::Enumeration(enumeration))),
    }
}

#[tactic(auto, unfolding(spec_rules::specs::Tables::structure_in))]
fn structure_in<'a>(
    alloc: Global,
    table: &'a Table,
) -> Result<Option<WrittenStructure<'a>>, NoMemory>
    ensures { IfOk result (λ found. option_map structure_view found ≡ structure_in (table_view table.now)) }
{
    if !only_keys(table, &["name", "member"]) {
        return Ok(None);
    }
    let Some(name) = required_text(table, "name") else {
        return Ok(None);
    };
    let Some(members) = required_tables(alloc, table, "member", false)? else {
        return Ok(None);
    };
    Ok(Some(WrittenStructure { name, members }))
}

#[tactic(auto, unfolding(spec_rules::specs::Tables::enumeration_in))]
fn enumeration_in<'a>(
    alloc: Global,
    table: &'a Table,
) -> Result<Option<WrittenEnumeration<'a>>, NoMemory>
    ensures { IfOk result (λ found. option_map enumeration_view found ≡ enumeration_in (table_view table.now)) }
{
    if !only_keys(table, &["name", "base", "value"]) {
        return Ok(None);
    }
    let Some(name) = required_text(table, "name") else {
        return Ok(None);
    };
    let Some(base) = required_text(table, "base") else {
        return Ok(None);
    };
    let Some(values) = required_tables(alloc, table, "value", true)? else {
        return Ok(None);
    };
    Ok(Some(WrittenEnumeration { name, base, values }))
}

//! A TOML table as the document of a description. Description rule 2.
ghost use Rattle.std.specs.Prelude.{◌≡◌, option_map, IfOk};
ghost use Rattle.toml.specs.View.{table_view};
ghost use Rattle.spec_rules.specs.Tables.{document_in, is_two};
ghost use Rattle.description_table.specs.Views.{document_view};

use crate::fields::{required_integer, required_text};
use crate::keys::only_keys;
use crate::tables::{optional_tables, required_tables};
use crate::written::Document;
use ads_base::NoMemory;
use std::alloc::Global;
use toml::Table;

/// The document that a table is. None exactly where description rule 2 is broken.
#[tactic(auto, unfolding(spec_rules::specs::Tables::document_in))]
pub fn document_in<'a>(alloc: Global, table: &'a Table) -> Result<Option<Document<'a>>, NoMemory>
    ensures { IfOk result (λ found. option_map document_view found ≡ document_in (table_view table.now)) }
{
    if !only_keys(table, &["schema", "net", "route", "type", "port"]) {
        return Ok(None);
    }
    let Some(schema) = required_integer(table, "schema") else {
        return Ok(None);
    };
    let Some(net) = required_text(table, "net") else {
        return Ok(None);
    };
    let second = is_second(schema);
    let Some(routes) = optional_tables(alloc, table, "route", second)? else {
        return Ok(None);
    };
    let Some(types) = optional_tables(alloc, table, "type", second)? else {
        return Ok(None);
    };
    let Some(ports) = required_tables(alloc, table, "port", second)? else {
        return Ok(None);
    };
    Ok(Some(Document {
        schema,
        net,
        routes,
        types,
        ports,
    }))
}

// Whether the keys of schema 2 are keys.
fn is_second(schema: i64) -> bool
    ensures { result ≡ is_two schema }
{
    schema == 2
}

//! The ports of a document.
ghost use Rattle.std.specs.Prelude.{◌≡◌, option_map, IfOk};
ghost use Rattle.toml.specs.View.{table_view};
ghost use Rattle.spec_rules.specs.Written as rules;
ghost use Rattle.spec_rules.specs.Tables.{port_in};
ghost use Rattle.description_table.specs.Views.{port_view};

use crate::keys::only_keys;
use crate::parts::{facts_in, sizes_in};
use crate::tables::{FromTable, optional_tables};
use crate::written::WrittenPort;
use ads_base::NoMemory;
use std::alloc::Global;
use toml::Table;

/// The keys of a port's table.
const PORT_KEYS: [&str; 10] = [
    "port", "name", "major", "minor", "build", "inputs", "outputs", "memory", "data", "symbol",
];

impl<'a> FromTable<'a> for WrittenPort<'a> {
    ghost Written = { rules.WrittenPort };

    ghost written_in = { port_in };

    ghost written_view = { port_view };

    fn from_table(alloc: Global, table: &'a Table, second: bool) -> Result<Option<Self>, NoMemory> {
        port_in(alloc, table, second)
    }
}

#[tactic(auto, unfolding(spec_rules::specs::Tables::port_in))]
fn port_in<'a>(
    alloc: Global,
    table: &'a Table,
    second: bool,
) -> Result<Option<WrittenPort<'a>>, NoMemory>
    ensures { IfOk result (λ found. option_map port_view found ≡ port_in second (table_view table.now)) }
{
    if !only_keys(table, &PORT_KEYS) {
        return Ok(None);
    }
    let Some(facts) = facts_in(table) else {
        return Ok(None);
    };
    let Some(sizes) = sizes_in(table) else {
        return Ok(None);
    };
    let Some(symbols) = optional_tables(alloc, table, "symbol", second)? else {
        return Ok(None);
    };
    Ok(Some(WrittenPort {
        number: facts.number,
        name: facts.name,
        major: facts.major,
        minor: facts.minor,
        build: facts.build,
        inputs: sizes.inputs,
        outputs: sizes.outputs,
        memory: sizes.memory,
        process: sizes.process,
        symbols,
    }))
}

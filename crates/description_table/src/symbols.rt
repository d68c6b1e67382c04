//! The symbols of a port.
ghost use Rattle.std.specs.Prelude.{◌≡◌, option_map, IfOk};
ghost use Rattle.toml.specs.View.{table_view};
ghost use Rattle.spec_rules.specs.Fields.{only_keys};
ghost use Rattle.spec_rules.specs.Written as rules;
ghost use Rattle.spec_rules.specs.Tables.{symbol_in, symbol_keys};
ghost use Rattle.description_table.specs.Views.{symbol_view};

use crate::fields::{maybe_integer, maybe_text};
use crate::keys::only_keys;
use crate::parts::{flags_in, place_in};
use crate::tables::FromTable;
use crate::writers::maybe_writers;
use crate::written::WrittenSymbol;
use ads_base::NoMemory;
use std::alloc::Global;
use toml::Table;

/// The keys of a symbol's table under schema 1.
const SYMBOL_KEYS: [&str; 9] = [
    "name",
    "type",
    "area",
    "offset",
    "comment",
    "persistent",
    "read_only",
    "initial",
    "signal",
];

/// The keys of a symbol's table under schema 2.
const SECOND_SYMBOL_KEYS: [&str; 10] = [
    "writers",
    "name",
    "type",
    "area",
    "offset",
    "comment",
    "persistent",
    "read_only",
    "initial",
    "signal",
];

impl<'a> FromTable<'a> for WrittenSymbol<'a> {
    ghost Written = { rules.WrittenSymbol };

    ghost written_in = { symbol_in };

    ghost written_view = { symbol_view };

    fn from_table(alloc: Global, table: &'a Table, second: bool) -> Result<Option<Self>, NoMemory> {
        symbol_in(alloc, table, second)
    }
}

#[tactic(auto, unfolding(spec_rules::specs::Tables::symbol_in))]
fn symbol_in<'a>(
    alloc: Global,
    table: &'a Table,
    second: bool,
) -> Result<Option<WrittenSymbol<'a>>, NoMemory>
    ensures { IfOk result (λ found. option_map symbol_view found ≡ symbol_in second (table_view table.now)) }
{
    if !are_symbol_keys(table, second) {
        return Ok(None);
    }
    let Some(place) = place_in(table) else {
        return Ok(None);
    };
    let Some(flags) = flags_in(table) else {
        return Ok(None);
    };
    let Some(initial) = maybe_text(table, "initial") else {
        return Ok(None);
    };
    let Some(signal) = maybe_integer(table, "signal") else {
        return Ok(None);
    };
    let Some(writers) = maybe_writers(alloc, table)? else {
        return Ok(None);
    };
    Ok(Some(WrittenSymbol {
        name: place.name,
        kind: place.kind,
        area: place.area,
        offset: place.offset,
        comment: flags.comment,
        persistent: flags.persistent,
        read_only: flags.read_only,
        initial,
        signal,
        writers,
    }))
}

// Whether each key of the table is one of a symbol's.
fn are_symbol_keys(table: &Table, second: bool) -> bool
    ensures { result ≡ only_keys (symbol_keys second) (table_view table.now) }
{
    if second {
        only_keys(table, &SECOND_SYMBOL_KEYS)
    } else {
        only_keys(table, &SYMBOL_KEYS)
    }
}

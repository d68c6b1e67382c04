//! The values of enumerations.
ghost use Rattle.std.specs.Prelude.{◌≡◌, option_map};
ghost use Rattle.toml.specs.View.{table_view};
ghost use Rattle.spec_rules.specs.Written as rules;
ghost use Rattle.spec_rules.specs.Tables.{value_in};
ghost use Rattle.description_table.specs.Views.{value_view};

use crate::fields::{required_integer, required_text};
use crate::keys::only_keys;
use crate::tables::FromTable;
use crate::written::WrittenValue;
use ads_base::NoMemory;
use std::alloc::Global;
use toml::Table;

impl<'a> FromTable<'a> for WrittenValue<'a> {
    ghost Written = { rules.EnumValue };

    ghost written_in = { λ second. value_in };

    ghost written_view = { value_view };

    fn from_table(
        _alloc: Global,
        table: &'a Table,
        _second: bool,
    ) -> Result<Option<Self>, NoMemory> {
        Ok(value_in(table))
    }
}

#[tactic(auto, unfolding(spec_rules::specs::Tables::value_in))]
fn value_in(table: &Table) -> Option<WrittenValue<'_>>
    ensures { option_map value_view result ≡ value_in (table_view table.now) }
{
    if !only_keys(table, &["name", "number"]) {
        return None;
    }
    let name = required_text(table, "name")?;
    let number = required_integer(table, "number")?;
    Some(WrittenValue { name, number })
}

//! The routes of a document.
ghost use Rattle.std.specs.Prelude.{◌≡◌, option_map};
ghost use Rattle.toml.specs.View.{table_view};
ghost use Rattle.spec_rules.specs.Written as rules;
ghost use Rattle.spec_rules.specs.Tables.{route_in};
ghost use Rattle.description_table.specs.Views.{route_view};

use crate::fields::required_text;
use crate::keys::only_keys;
use crate::tables::FromTable;
use crate::written::WrittenRoute;
use ads_base::NoMemory;
use std::alloc::Global;
use toml::Table;

impl<'a> FromTable<'a> for WrittenRoute<'a> {
    ghost Written = { rules.WrittenRoute };

    ghost written_in = { λ second. route_in };

    ghost written_view = { route_view };

    fn from_table(
        _alloc: Global,
        table: &'a Table,
        _second: bool,
    ) -> Result<Option<Self>, NoMemory> {
        Ok(route_in(table))
    }
}

#[tactic(auto, unfolding(spec_rules::specs::Tables::route_in))]
fn route_in(table: &Table) -> Option<WrittenRoute<'_>>
    ensures { option_map route_view result ≡ route_in (table_view table.now) }
{
    if !only_keys(table, &["net", "rights"]) {
        return None;
    }
    let net = required_text(table, "net")?;
    let rights = required_text(table, "rights")?;
    Some(WrittenRoute { net, rights })
}

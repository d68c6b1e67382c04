//! The members of structures.
ghost use Rattle.std.specs.Prelude.{◌≡◌, option_map};
ghost use Rattle.toml.specs.View.{table_view};
ghost use Rattle.spec_rules.specs.Written as rules;
ghost use Rattle.spec_rules.specs.Tables.{member_in};
ghost use Rattle.description_table.specs.Views.{member_view};

use crate::fields::{optional_text, required_text};
use crate::keys::only_keys;
use crate::tables::FromTable;
use crate::written::WrittenMember;
use ads_base::NoMemory;
use std::alloc::Global;
use toml::Table;

impl<'a> FromTable<'a> for WrittenMember<'a> {
    ghost Written = { rules.WrittenMember };

    ghost written_in = { λ second. member_in };

    ghost written_view = { member_view };

    fn from_table(
        _alloc: Global,
        table: &'a Table,
        _second: bool,
    ) -> Result<Option<Self>, NoMemory> {
        Ok(member_in(table))
    }
}

#[tactic(auto, unfolding(spec_rules::specs::Tables::member_in))]
fn member_in(table: &Table) -> Option<WrittenMember<'_>>
    ensures { option_map member_view result ≡ member_in (table_view table.now) }
{
    if !only_keys(table, &["name", "type", "comment"]) {
        return None;
    }
    let name = required_text(table, "name")?;
    let kind = required_text(table, "type")?;
    let comment = optional_text(table, "comment")?;
    Some(WrittenMember {
        name,
        kind,
        comment,
    })
}

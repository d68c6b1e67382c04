//! The text of a table.

ghost use Rattle.std.specs.Prelude.{◌≡◌, ◌≤◌, true, Some, IfOk};
ghost use Rattle.toml.specs.Data.{members_depth};
ghost use Rattle.toml.specs.View.{table_view};
ghost use Rattle.spec_rules.specs.TextVerdict.{document_of};
ghost use Rattle.table_text.specs.PlainTable.{is_plain_table};
ghost use Rattle.table_text.specs.TableText.{document_text};

use ads_base::{NoMemory, Octets};
use std::alloc::Global;
use toml::{Table, ser};

/// The text of a table, which reads back as the table.
pub fn text_of_table(alloc: Global, table: &Table) -> Result<Octets, NoMemory>
    requires plain { is_plain_table (table_view table.now) ≡ true }
    requires shallow { members_depth (table_view table.now) ≤ 80 }
    ensures text { IfOk result (λ text. text ≡ document_text (table_view table.now)) }
    ensures reads_back { IfOk result (λ text. document_of text ≡ Some (table_view table.now)) }
{
    match toml::table_to_string(alloc, table) {
        Ok(text) => Ok(Octets::from_vec(text.into_bytes())),
        Err(ser::Error::OutOfMemory) => Err(NoMemory),
        Err(ser::Error::DateInvalid) => unreachable!(),
    }
}

//! The keys of a table.
ghost use Rattle.std.specs.Prelude.{◌≡◌, bytes_eq, map, string_bytes};
ghost use Rattle.std.specs.List.{list_any, list_all};
ghost use Rattle.std.specs.BTreeMap.{keys};
ghost use Rattle.toml.specs.View.{table_view};
ghost use Rattle.spec_rules.specs.Fields.{only_keys};
ghost use Rattle.description_table.specs.Views.{text_view};

use toml::Table;

/// Whether each key of the table is one of these.
pub fn only_keys(table: &Table, known: &[&str]) -> bool
    ensures { result ≡ only_keys (map text_view known.now) (table_view table.now) }
{
    are_known(table, known)
}

fn are_known(table: &Table, known: &[&str]) -> bool
    ensures { result ≡ list_all (λ key. list_any (λ k. bytes_eq (string_bytes key) (text_view k)) known.now) (keys table.now) }
{
    table.keys().all(|key| is_known(key.as_str(), known))
}

fn is_known(key: &str, known: &[&str]) -> bool
    ensures { result ≡ list_any (λ k. bytes_eq key.now (text_view k)) known.now }
{
    known.iter().any(|k| key == *k)
}

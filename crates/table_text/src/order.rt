//! The keys of tables ascend.

ghost use Rattle.std.specs.Prelude.{◌≡◌, true};
ghost use Rattle.toml.specs.Data.{is_sorted, items_are_sorted, members_are_sorted};
ghost use Rattle.toml.specs.View.{view, array_view, table_view};

use toml::value::Array;
use toml::{Table, Value};

/// Tells, and changes nothing: the keys of a table and of each table in it ascend. It looks at every value once.
#[cycle(order)]
pub fn keys_ascend(table: &Table)
    ensures { members_are_sorted (table_view table.now) ≡ true }
{
    'members: for (_key, member) in table.iter() {
        value_ascends(member);
    }
}

#[cycle(order)]
fn value_ascends(value: &Value)
    ensures { is_sorted (view value.now) ≡ true }
{
    match value {
        Value::Array(array) => array_ascends(array),
        Value::Table(table) => keys_ascend(table),
        _ => {}
    }
}

#[cycle(order)]
fn array_ascends(array: &Array)
    ensures { items_are_sorted (array_view array.now) ≡ true }
{
    'items: for item in array {
        value_ascends(item);
    }
}

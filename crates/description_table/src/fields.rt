//! The fields of a TOML table, each where it is of its kind.
ghost use Rattle.std.specs.Prelude.{◌≡◌, [], pos, false, option_map};
ghost use Rattle.toml.specs.Data.{get_member, as_str, as_integer, as_bool, as_array};
ghost use Rattle.toml.specs.View.{view, items_view, table_view};
ghost use Rattle.spec_rules.specs.Fields.{required, optional, maybe};

use toml::{Table, Value};

pub fn value_at<'a>(table: &'a Table, key: &str) -> Option<&'a Value>
    ensures { option_map (λ v. view v.now) result ≡ get_member key.now (table_view table.now) }
{
    table.get(key)
}

pub fn text_in(value: &Value) -> Option<&[u8]>
    ensures { option_map (λ t. t.now) result ≡ as_str (view value.now) }
{
    let text = value.as_str()?;
    Some(text.as_bytes())
}

pub fn items_in(value: &Value) -> Option<&[Value]>
    ensures { option_map (λ items. items_view items.now) result ≡ as_array (view value.now) }
{
    let items = value.as_array()?;
    Some(items.as_slice())
}

pub fn required_text<'a>(table: &'a Table, key: &str) -> Option<&'a [u8]>
    ensures { option_map (λ t. t.now) result ≡ required as_str key.now (table_view table.now) }
{
    text_in(value_at(table, key)?)
}

pub fn optional_text<'a>(table: &'a Table, key: &str) -> Option<&'a [u8]>
    ensures { option_map (λ t. t.now) result ≡ optional as_str [] key.now (table_view table.now) }
{
    match value_at(table, key) {
        None => Some(&[]),
        Some(value) => text_in(value),
    }
}

pub fn maybe_text<'a>(table: &'a Table, key: &str) -> Option<Option<&'a [u8]>>
    ensures { option_map (option_map (λ t. t.now)) result ≡ maybe as_str key.now (table_view table.now) }
{
    match value_at(table, key) {
        None => Some(None),
        Some(value) => Some(Some(text_in(value)?)),
    }
}

pub fn required_integer(table: &Table, key: &str) -> Option<i64>
    ensures { result ≡ required as_integer key.now (table_view table.now) }
{
    value_at(table, key)?.as_integer()
}

pub fn optional_integer(table: &Table, key: &str) -> Option<i64>
    ensures { result ≡ optional as_integer (pos 0) key.now (table_view table.now) }
{
    match value_at(table, key) {
        None => Some(0),
        Some(value) => value.as_integer(),
    }
}

pub fn maybe_integer(table: &Table, key: &str) -> Option<Option<i64>>
    ensures { result ≡ maybe as_integer key.now (table_view table.now) }
{
    match value_at(table, key) {
        None => Some(None),
        Some(value) => Some(Some(value.as_integer()?)),
    }
}

pub fn optional_flag(table: &Table, key: &str) -> Option<bool>
    ensures { result ≡ optional as_bool false key.now (table_view table.now) }
{
    match value_at(table, key) {
        None => Some(false),
        Some(value) => value.as_bool(),
    }
}

//! Arrays of tables, each table read as one record of a description.
ghost use Rattle.std.specs.Prelude.{◌≡◌, [], map, Bool, Option, option_map, IfOk};
ghost use Rattle.toml.specs.Data.{Members};
ghost use Rattle.toml.specs.View.{view, items_view, table_view};
ghost use Rattle.spec_rules.specs.Fields.{required, optional, items_in, table_of, tables_of};

use crate::fields::{items_in, value_at};
use ads_base::NoMemory;
use std::alloc::Global;
use toml::{Table, Value};

/// A record that a table of a description is read as.
pub trait FromTable<'a>: Sized + Drop {
    // The record as the rules have it.
    ghost Written: { Type 0 };

    // How the rules read it, where the argument says whether the keys of schema 2 are keys.
    ghost written_in: { Bool → Members → Option Written };

    // What a value of the code is to the rules.
    ghost written_view: { Self → Written };

    /// The record in a table. None exactly where the table has another form.
    fn from_table(alloc: Global, table: &'a Table, second: bool) -> Result<Option<Self>, NoMemory>
        ensures { IfOk result (λ found. option_map written_view found ≡ written_in second (table_view table.now)) };
}

/// The tables under a key.
pub fn required_tables<'a, T: FromTable<'a>>(
    alloc: Global,
    table: &'a Table,
    key: &str,
    second: bool,
) -> Result<Option<Vec<T>>, NoMemory>
    ensures { IfOk result (λ found. option_map (λ v. map T.written_view v.items) found
        ≡ required (tables_of (T.written_in second)) key.now (table_view table.now)) }
{
    match value_at(table, key) {
        None => Ok(None),
        Some(value) => tables_in(alloc, value, second),
    }
}

/// The tables under a key; an absent key gives none.
pub fn optional_tables<'a, T: FromTable<'a>>(
    alloc: Global,
    table: &'a Table,
    key: &str,
    second: bool,
) -> Result<Option<Vec<T>>, NoMemory>
    ensures { IfOk result (λ found. option_map (λ v. map T.written_view v.items) found
        ≡ optional (tables_of (T.written_in second)) [] key.now (table_view table.now)) }
{
    match value_at(table, key) {
        None => Ok(Some(Vec::new(alloc))),
        Some(value) => tables_in(alloc, value, second),
    }
}

fn tables_in<'a, T: FromTable<'a>>(
    alloc: Global,
    value: &'a Value,
    second: bool,
) -> Result<Option<Vec<T>>, NoMemory>
    ensures { IfOk result (λ found. option_map (λ v. map T.written_view v.items) found
        ≡ tables_of (T.written_in second) (view value.now)) }
{
    match items_in(value) {
        None => Ok(None),
        Some(items) => records_in(alloc, items, second),
    }
}

fn records_in<'a, T: FromTable<'a>>(
    alloc: Global,
    items: &'a [Value],
    second: bool,
) -> Result<Option<Vec<T>>, NoMemory>
    ensures { IfOk result (λ found. option_map (λ v. map T.written_view v.items) found
        ≡ items_in (table_of (T.written_in second)) (items_view items.now)) }
{
    let mut records = Vec::new(alloc);
    for item in items {
        let Some(one) = record_at(alloc, item, second)? else {
            return Ok(None);
        };
        records.push(one)?;
    }
    Ok(Some(records))
}

fn record_at<'a, T: FromTable<'a>>(
    alloc: Global,
    item: &'a Value,
    second: bool,
) -> Result<Option<T>, NoMemory>
    ensures { IfOk result (λ found. option_map T.written_view found ≡ table_of (T.written_in second) (view item.now)) }
{
    match item.as_table() {
        None => Ok(None),
        Some(table) => T::from_table(alloc, table, second),
    }
}

//! Values of tables.

ghost use Rattle.std.specs.Prelude.{◌≡◌, OnOk};
ghost use Rattle.toml.specs.Data.{string, integer, array, table, push_item};
ghost use Rattle.toml.specs.View.{view, table_view, items_view};
ghost use Rattle.table_text.specs.SetMember.{set_member};

use ads_base::NoMemory;
use std::alloc::Global;
use toml::{Table, Value};

/// Sets the value at a key.
pub fn set_member(alloc: Global, table: &mut Table, key: &str, value: Value) -> Result<(), NoMemory>
    ensures { OnOk result (table_view table.new ≡ set_member key.now (view value) (table_view table.old)) }
{
    let key = String::from_str(alloc, key)?;
    match table.insert(key, value) {
        Ok(_) => Ok(()),
        Err(_) => Err(NoMemory),
    }
}

/// Sets a text at a key.
pub fn set_text(alloc: Global, table: &mut Table, key: &str, text: &str) -> Result<(), NoMemory>
    ensures { OnOk result (table_view table.new ≡ set_member key.now (string text.now) (table_view table.old)) }
{
    let value = Value::string(alloc, text)?;
    set_member(alloc, table, key, value)?;
    Ok(())
}

/// Sets a whole number at a key.
pub fn set_number(alloc: Global, table: &mut Table, key: &str, number: i64) -> Result<(), NoMemory>
    ensures { OnOk result (table_view table.new ≡ set_member key.now (integer number) (table_view table.old)) }
{
    set_member(alloc, table, key, Value::Integer(number))?;
    Ok(())
}

/// Sets an array at a key.
pub fn set_array(
    alloc: Global,
    table: &mut Table,
    key: &str,
    items: Vec<Value>,
) -> Result<(), NoMemory>
    ensures { OnOk result (table_view table.new ≡ set_member key.now (array (items_view items.items)) (table_view table.old)) }
{
    set_member(alloc, table, key, Value::Array(items))?;
    Ok(())
}

/// Appends a table to an array.
pub fn push_table(all: &mut Vec<Value>, inner: Table) -> Result<(), NoMemory>
    ensures { OnOk result (items_view all.new.items ≡ push_item (items_view all.old.items) (table (table_view inner))) }
{
    all.push(Value::Table(inner))?;
    Ok(())
}

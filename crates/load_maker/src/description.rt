//! The document of a load, as a table.

ghost use Rattle.std.specs.Prelude.{◌≡◌, ◌≤◌, ◌<◌, OnOk, IfOk, ◌∷◌, [], string_bytes};
ghost use Rattle.toml.specs.Data.{table, push_item};
ghost use Rattle.toml.specs.View.{table_view, items_of, items_view};
ghost use Rattle.load_maker.specs.LoadDescription.{symbol_name, symbol_table, symbol_tables, route_table, route_tables, port_table, load_table};

use crate::numbers::{PLANT_PORT, SYMBOL_LEN};
use ads_base::NoMemory;
use std::alloc::Global;
use table_text::{push_table, set_array, set_number, set_text};
use toml::{Table, Value};

/// The table of the document.
pub fn load_table(alloc: Global) -> Result<Table, NoMemory>
    ensures { IfOk result (λ made. table_view made ≡ load_table) }
{
    let symbols = symbols(alloc, 100)?;
    let inner = port(alloc, symbols)?;
    let ports = one_value(alloc, inner)?;
    let routes = routes(alloc)?;
    let mut made = Table::new(alloc);
    set_text(alloc, &mut made, "net", "5.1.2.3.1.1")?;
    set_array(alloc, &mut made, "port", ports)?;
    set_array(alloc, &mut made, "route", routes)?;
    set_number(alloc, &mut made, "schema", 1)?;
    Ok(made)
}

fn one_value(alloc: Global, inner: Table) -> Result<Vec<Value>, NoMemory>
    ensures { IfOk result (λ all. items_view all.items ≡ items_of (table (table_view inner) ∷ [])) }
{
    let mut all = Vec::new(alloc);
    push_table(&mut all, inner)?;
    Ok(all)
}

fn port(alloc: Global, symbols: Vec<Value>) -> Result<Table, NoMemory>
    ensures { IfOk result (λ made. table_view made ≡ port_table (items_view symbols.items)) }
{
    let mut made = Table::new(alloc);
    set_number(alloc, &mut made, "build", 0)?;
    set_number(alloc, &mut made, "data", 400)?;
    set_number(alloc, &mut made, "major", 1)?;
    set_number(alloc, &mut made, "minor", 0)?;
    set_text(alloc, &mut made, "name", "Load")?;
    set_number(alloc, &mut made, "port", i64::from(PLANT_PORT))?;
    set_array(alloc, &mut made, "symbol", symbols)?;
    Ok(made)
}

fn routes(alloc: Global) -> Result<Vec<Value>, NoMemory>
    ensures { IfOk result (λ all. items_view all.items ≡ items_of route_tables) }
{
    let mut all = Vec::new(alloc);
    push_route(alloc, &mut all, "10.0.0.1.1.1")?;
    push_route(alloc, &mut all, "10.0.0.2.1.1")?;
    push_route(alloc, &mut all, "10.0.0.3.1.1")?;
    push_route(alloc, &mut all, "10.0.0.4.1.1")?;
    Ok(all)
}

fn push_route(alloc: Global, all: &mut Vec<Value>, net: &str) -> Result<(), NoMemory>
    ensures { OnOk result (items_view all.new.items ≡ push_item (items_view all.old.items) (table (route_table net.now))) }
{
    let inner = route(alloc, net)?;
    push_table(all, inner)?;
    Ok(())
}

fn route(alloc: Global, net: &str) -> Result<Table, NoMemory>
    ensures { IfOk result (λ made. table_view made ≡ route_table net.now) }
{
    let mut made = Table::new(alloc);
    set_text(alloc, &mut made, "net", net)?;
    set_text(alloc, &mut made, "rights", "control")?;
    Ok(made)
}

// The symbols from the first on.
fn symbols(alloc: Global, count: u32) -> Result<Vec<Value>, NoMemory>
    requires { count ≤ 100 }
    ensures { IfOk result (λ all. items_view all.items ≡ items_of (symbol_tables count)) }
{
    let mut all = Vec::new(alloc);
    for i in 0..count {
        let inner = symbol(alloc, i)?;
        push_table(&mut all, inner)?;
    }
    Ok(all)
}

fn symbol(alloc: Global, i: u32) -> Result<Table, NoMemory>
    requires { i < 100 }
    ensures { IfOk result (λ made. table_view made ≡ symbol_table i) }
{
    let name = symbol_name(alloc, i)?;
    let mut made = Table::new(alloc);
    set_text(alloc, &mut made, "area", "data")?;
    set_text(alloc, &mut made, "name", name.as_str())?;
    set_number(alloc, &mut made, "offset", i64::from(SYMBOL_LEN * i))?;
    set_text(alloc, &mut made, "type", "DINT")?;
    Ok(made)
}

fn symbol_name(alloc: Global, i: u32) -> Result<String, NoMemory>
    ensures { IfOk result (λ name. string_bytes name ≡ symbol_name i) }
{
    let digits = i.to_string(alloc)?;
    let mut name = String::from_str(alloc, "L.s")?;
    name.push_str(digits.as_str())?;
    Ok(name)
}

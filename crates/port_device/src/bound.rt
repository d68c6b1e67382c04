//! Which symbol of a port a signal writes.

ghost use Rattle.std.specs.Prelude.{◌≡◌, ℕ, ◌+◌, ◌<◌, ◌≤◌, length, max, Some, IfOk, OnOk};
ghost use Rattle.symbol_table.specs.Rows.{symbols_of_rows};
ghost use Rattle.port_device.specs.Signals.{bound_at};
ghost use Rattle.port_device.specs.BoundTables.{IsBoundTable, bound_with, entries_for};

use ads_base::NoMemory;
use std::alloc::Global;
use symbol_table::SymbolRow;

/// At each signal's number the number of the first of these symbols that it writes, up to the last signal that writes one.
pub(crate) fn bound_symbols(alloc: Global, rows: &[SymbolRow]) -> Result<Vec<Option<u32>>, NoMemory>
    requires few { length rows.now ≤ 10000 }
    ensures { IfOk result (λ bound. IsBoundTable bound.items (symbols_of_rows rows.now)) }
{
    let mut bound = Vec::new(alloc);
    for (number, row) in rows.iter().enumerate() {
        bind_row(&mut bound, row, number as u32)?;
    }
    Ok(bound)
}

// A symbol behind all that are bound already.
fn bind_row(bound: &mut Vec<Option<u32>>, row: &SymbolRow, number: u32) -> Result<(), NoMemory>
    ensures bound { OnOk result ((n : ℕ) → bound_at bound.new.items n ≡ bound_with row.now.signal number (bound_at bound.old.items n) n) }
    ensures short { OnOk result (length bound.new.items ≡ max (length bound.old.items) (entries_for row.now.signal)) }
{
    match row.signal {
        None => Ok(()),
        Some(signal) => bind(bound, signal, number),
    }
}

fn bind(bound: &mut Vec<Option<u32>>, signal: u32, number: u32) -> Result<(), NoMemory>
    ensures bound { OnOk result ((n : ℕ) → bound_at bound.new.items n ≡ bound_with (Some signal) number (bound_at bound.old.items n) n) }
    ensures short { OnOk result (length bound.new.items ≡ max (length bound.old.items) (signal + 1)) }
{
    let place = signal as usize;
    lengthen(bound, place)?;
    if bound[place].is_none() {
        bound[place] = Some(number);
    }
    Ok(())
}

// Entries with no symbol, up to a place.
fn lengthen(bound: &mut Vec<Option<u32>>, place: usize) -> Result<(), NoMemory>
    requires { place < 4294967296 }
    ensures within { OnOk result (place < length bound.new.items) }
    ensures same { OnOk result ((n : ℕ) → bound_at bound.new.items n ≡ bound_at bound.old.items n) }
    ensures short { OnOk result (length bound.new.items ≡ max (length bound.old.items) (place + 1)) }
{
    while bound.len() <= place {
        bound.push(None)?;
    }
    Ok(())
}

/// The number of the symbol that a signal writes.
pub(crate) fn symbol_of(bound: &[Option<u32>], signal: u32) -> Option<u32>
    ensures { result ≡ bound_at bound.now signal }
{
    let place = signal as usize;
    if place < bound.len() {
        bound[place]
    } else {
        None
    }
}

//! The symbols that have bytes of a range, by halving the symbols in the order of their places.

ghost use Rattle.std.specs.Prelude.{◌≡◌, ◌+◌, ◌≤◌, IsTrue};
ghost use Rattle.std.specs.List.{list_all};
ghost use Rattle.type_layout.specs.Descriptions.{area_of};
ghost use Rattle.symbol_table.specs.PlaceOrders.{has_bytes, IsPlaceOrder};
ghost use Rattle.symbol_table.specs.Ranges.{AreInRange};
ghost use Rattle.symbol_table.specs.Rows.{symbol_of_row, symbols_of_rows};
ghost use Rattle.symbol_table.specs.Tiles.{covers};
ghost use Rattle.symbol_table.specs.Tiling.{HasEnded};

use crate::row::SymbolRow;
use crate::tiling::{begun, is_same_area};
use type_layout::Area;

/// The numbers of the symbols to which bytes of a range belong, in the order of their places. The area has so many bytes.
pub fn numbers_in<'a>(
    rows: &[SymbolRow],
    numbers: &'a [u32],
    size: u32,
    area: Area,
    at: u32,
    len: u32,
) -> &'a [u32]
    requires order { IsPlaceOrder (symbols_of_rows rows.now) numbers.now }
    requires bytes { IsTrue (list_all has_bytes (symbols_of_rows rows.now)) }
    requires there { at + len ≤ size }
    ensures { AreInRange (symbols_of_rows rows.now) (area_of area) at len result.now }
{
    if len == 0 {
        return &[];
    }
    let first = ended(rows, numbers, area, at);
    let until = begun(rows, numbers, area, at + (len - 1));
    &numbers[first..until]
}

// How many symbols end by a byte, in the order of their places.
fn ended(rows: &[SymbolRow], numbers: &[u32], area: Area, at: u32) -> usize
    requires { IsPlaceOrder (symbols_of_rows rows.now) numbers.now }
    ensures { HasEnded (symbols_of_rows rows.now) numbers.now (area_of area) at result }
{
    let begun = begun(rows, numbers, area, at);
    if begun == 0 {
        return 0;
    }
    let row = &rows[numbers[begun - 1] as usize];
    if covers(row, area, at) {
        begun - 1
    } else {
        begun
    }
}

// Whether a byte of an area belongs to a symbol.
fn covers(row: &SymbolRow, area: Area, at: u32) -> bool
    ensures { result ≡ covers (area_of area) at (symbol_of_row row.now) }
{
    is_same_area(row.area, area) && row.at <= at && (at as u64) < row.at as u64 + row.len as u64
}

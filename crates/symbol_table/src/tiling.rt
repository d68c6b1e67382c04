//! The symbol that covers a byte of an area, or the gap in which the byte stands, by halving the symbols in the order
//! of their places.

ghost use Rattle.std.specs.Prelude.{◌≡◌, ◌<◌, ◌≤◌, IsTrue, IfSome, IfNone, slice_get, Some};
ghost use Rattle.std.specs.List.{list_all};
ghost use Rattle.spec_plant.specs.Description.{size_in};
ghost use Rattle.spec_plant.specs.World as world;
ghost use Rattle.type_layout.specs.Descriptions.{area_of, sizes_of};
ghost use Rattle.symbol_table.specs.Rows.{symbols_of_rows};
ghost use Rattle.symbol_table.specs.PlaceOrders.{has_bytes, is_within, IsPlaceOrder};
ghost use Rattle.symbol_table.specs.Tiles.{IsTileWithin};
ghost use Rattle.symbol_table.specs.Tiling.{begins_by, HasBegun, EndsLast, HasNoneBefore, BeginsFirst, HasNoneBehind, StartsGap, EndsGap, ends_by};
ghost use Rattle.symbol_table.specs.Rows.{symbol_of_row};

use crate::Tile;
use crate::by_place::number_of_area;
use crate::row::SymbolRow;
use type_layout::{Area, Sizes};

/// What stands at a byte of an area.
pub fn tile_at(rows: &[SymbolRow], numbers: &[u32], sizes: Sizes, area: Area, at: u32) -> Tile
    requires order { IsPlaceOrder (symbols_of_rows rows.now) numbers.now }
    requires bytes { IsTrue (list_all has_bytes (symbols_of_rows rows.now)) }
    requires within { IsTrue (list_all (is_within (sizes_of sizes)) (symbols_of_rows rows.now)) }
    requires there { at < size_in (sizes_of sizes) (area_of area) }
    ensures { IsTileWithin (symbols_of_rows rows.now) (area_of area) (size_in (sizes_of sizes) (area_of area)) at result }
{
    let size = sizes.in_area(area);
    tile_within(rows, numbers, size, area, at)
}

// What stands at a byte of an area of so many bytes.
fn tile_within(rows: &[SymbolRow], numbers: &[u32], size: u32, area: Area, at: u32) -> Tile
    requires order { IsPlaceOrder (symbols_of_rows rows.now) numbers.now }
    requires bytes { IsTrue (list_all has_bytes (symbols_of_rows rows.now)) }
    requires within { IsTrue (list_all (ends_by (area_of area) size) (symbols_of_rows rows.now)) }
    requires there { at < size }
    ensures { IsTileWithin (symbols_of_rows rows.now) (area_of area) size at result }
{
    let begun = begun(rows, numbers, area, at);
    match last_before(rows, numbers, size, begun, area, at) {
        None => gap_from(rows, numbers, size, begun, area, at, 0),
        Some((number, end)) => {
            if at < end {
                Tile::Symbol(number)
            } else {
                gap_from(rows, numbers, size, begun, area, at, end)
            }
        }
    }
}

// The gap round a byte that begins here.
fn gap_from(
    rows: &[SymbolRow],
    numbers: &[u32],
    size: u32,
    begun: usize,
    area: Area,
    at: u32,
    first: u32,
) -> Tile
    requires order { IsPlaceOrder (symbols_of_rows rows.now) numbers.now }
    requires bytes { IsTrue (list_all has_bytes (symbols_of_rows rows.now)) }
    requires within { IsTrue (list_all (ends_by (area_of area) size) (symbols_of_rows rows.now)) }
    requires there { at < size }
    requires begun { HasBegun (symbols_of_rows rows.now) numbers.now (area_of area) at begun }
    requires starts { StartsGap (symbols_of_rows rows.now) (area_of area) at first }
    ensures { IsTileWithin (symbols_of_rows rows.now) (area_of area) size at result }
{
    let end = gap_end(rows, numbers, size, begun, area, at);
    Tile::Gap {
        at: first,
        len: end - first,
    }
}

// Where the gap round a byte ends.
fn gap_end(rows: &[SymbolRow], numbers: &[u32], size: u32, begun: usize, area: Area, at: u32) -> u32
    requires order { IsPlaceOrder (symbols_of_rows rows.now) numbers.now }
    requires bytes { IsTrue (list_all has_bytes (symbols_of_rows rows.now)) }
    requires within { IsTrue (list_all (ends_by (area_of area) size) (symbols_of_rows rows.now)) }
    requires there { at < size }
    requires begun { HasBegun (symbols_of_rows rows.now) numbers.now (area_of area) at begun }
    ensures { EndsGap (symbols_of_rows rows.now) (area_of area) at size result }
{
    match first_behind(rows, numbers, begun, area, at) {
        None => size,
        Some(start) => start,
    }
}

/// How many symbols begin by a byte, in the order of their places.
pub fn begun(rows: &[SymbolRow], numbers: &[u32], area: Area, at: u32) -> usize
    requires { IsPlaceOrder (symbols_of_rows rows.now) numbers.now }
    ensures { HasBegun (symbols_of_rows rows.now) numbers.now (area_of area) at result }
{
    let mut low = 0;
    let mut high = numbers.len();
    while low < high {
        let middle = low + (high - low) / 2;
        if begins_by(&rows[numbers[middle] as usize], area, at) {
            low = middle + 1;
        } else {
            high = middle;
        }
    }
    low
}

// Of the symbols of the area that begin by the byte, the one that ends last, and where it ends.
fn last_before(
    rows: &[SymbolRow],
    numbers: &[u32],
    size: u32,
    begun: usize,
    area: Area,
    at: u32,
) -> Option<(u32, u32)>
    requires order { IsPlaceOrder (symbols_of_rows rows.now) numbers.now }
    requires within { IsTrue (list_all (ends_by (area_of area) size) (symbols_of_rows rows.now)) }
    requires begun { HasBegun (symbols_of_rows rows.now) numbers.now (area_of area) at begun }
    ensures some { IfSome result (EndsLast (symbols_of_rows rows.now) (area_of area) at) }
    ensures none { IfNone result (HasNoneBefore (symbols_of_rows rows.now) (area_of area) at) }
{
    if begun == 0 {
        return None;
    }
    let number = numbers[begun - 1];
    let row = &rows[number as usize];
    if is_same_area(row.area, area) {
        Some((number, row.at + row.len))
    } else {
        None
    }
}

// Where the first symbol of the area begins that begins behind the byte.
fn first_behind(
    rows: &[SymbolRow],
    numbers: &[u32],
    begun: usize,
    area: Area,
    at: u32,
) -> Option<u32>
    requires order { IsPlaceOrder (symbols_of_rows rows.now) numbers.now }
    requires begun { HasBegun (symbols_of_rows rows.now) numbers.now (area_of area) at begun }
    ensures some { IfSome result (BeginsFirst (symbols_of_rows rows.now) (area_of area) at) }
    ensures none { IfNone result (HasNoneBehind (symbols_of_rows rows.now) (area_of area) at) }
{
    if begun == numbers.len() {
        return None;
    }
    let row = &rows[numbers[begun] as usize];
    if is_same_area(row.area, area) {
        Some(row.at)
    } else {
        None
    }
}

// Whether a symbol lies in an earlier area, or begins at the byte or before it.
fn begins_by(row: &SymbolRow, area: Area, at: u32) -> bool
    ensures { result ≡ begins_by (area_of area) at (symbol_of_row row.now) }
{
    let own = number_of_area(row.area);
    let other = number_of_area(area);
    own < other || (own == other && row.at <= at)
}

/// Whether two areas are the same.
pub fn is_same_area(a: Area, b: Area) -> bool
    ensures { result ≡ world.is_same_area (area_of a) (area_of b) }
{
    number_of_area(a) == number_of_area(b)
}

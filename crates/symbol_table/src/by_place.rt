//! Symbols in the order of their places.

ghost use Rattle.std.specs.Prelude.{◌≡◌, ◌^◌, ◌<◌, length, IsTrue, IfOk};
ghost use Rattle.std.specs.List.{list_all};
ghost use Rattle.spec_plant.specs.World.{area_number};
ghost use Rattle.spec_plant.specs.AcceptedTypes.{all_pairs};
ghost use Rattle.type_layout.specs.Descriptions.{area_of};
ghost use Rattle.symbol_table.specs.Rows.{symbols_of_rows};
ghost use Rattle.symbol_table.specs.PlaceKeys.{places_from, numbers_of};
ghost use Rattle.symbol_table.specs.PlaceOrders.{has_bytes, lie_apart, IsPlaceOrder};

use crate::row::SymbolRow;
use ads_base::NoMemory;
use std::alloc::Global;
use type_layout::Area;

/// The numbers of the symbols in the order of their places: by area, and by offset in an area.
pub fn place_order(alloc: Global, rows: &[SymbolRow]) -> Result<Vec<u32>, NoMemory>
    requires few { length rows.now < 2 ^ 32 }
    requires bytes { IsTrue (list_all has_bytes (symbols_of_rows rows.now)) }
    requires apart { IsTrue (all_pairs lie_apart (symbols_of_rows rows.now)) }
    ensures { IfOk result (λ numbers. IsPlaceOrder (symbols_of_rows rows.now) numbers.items) }
{
    let mut places = places_of(alloc, rows)?;
    places.sort_unstable();
    let numbers = numbers_of(alloc, places.as_slice())?;
    Ok(numbers)
}

// Each symbol's area, offset and number.
fn places_of(alloc: Global, rows: &[SymbolRow]) -> Result<Vec<(u8, u32, u32)>, NoMemory>
    requires { length rows.now < 2 ^ 32 }
    ensures { IfOk result (λ places. places.items ≡ places_from 0 (symbols_of_rows rows.now)) }
{
    let mut places = Vec::new(alloc);
    for (number, row) in rows.iter().enumerate() {
        places.push((number_of_area(row.area), row.at, number as u32))?;
    }
    Ok(places)
}

fn numbers_of(alloc: Global, places: &[(u8, u32, u32)]) -> Result<Vec<u32>, NoMemory>
    ensures { IfOk result (λ numbers. numbers.items ≡ numbers_of places.now) }
{
    let mut numbers = Vec::new(alloc);
    for place in places {
        numbers.push(place.2)?;
    }
    Ok(numbers)
}

/// The place of an area among all.
pub fn number_of_area(area: Area) -> u8
    ensures { result ≡ area_number (area_of area) }
{
    match area {
        Area::Inputs => 0,
        Area::Outputs => 1,
        Area::Memory => 2,
        Area::Process => 3,
    }
}

//! Description rule 12: places of symbols.
ghost use Rattle.std.specs.Prelude.{◌≡◌, ◌<◌, ◌+◌, ◌^◌, [], map, true, IfOk};
ghost use Rattle.spec_plant.specs.Description.{size_in};
ghost use Rattle.spec_plant.specs.World.{area_number};
ghost use Rattle.spec_rules.specs.Places.{first_wrong};
ghost use Rattle.spec_rules.specs.SymbolRules.{wrong_place, is_right_place};
ghost use Rattle.spec_rules.specs.Described.{sizes_described};
ghost use Rattle.type_layout.specs.Descriptions.{area_of};
ghost use Rattle.type_layout.specs.NamedTypes.{types_of};
ghost use Rattle.description_rules.specs.KnownTypes.{IsKnown};
ghost use Rattle.description_rules.specs.Placed.{place_view, place_of, is_right_behind};
ghost use Rattle.description_rules.specs.Taken.{AreInOrder};
ghost use Rattle.description_rules.specs.TakenPlaces.{TakesPlace, range_of, symbol_place};
ghost use Rattle.description_table.specs.Views.{port_view, symbol_view};

use crate::known_types::{KnownTypes, text_size};
use crate::numbers::{is_natural, natural_of};
use crate::taken::{ByteRange, take_range};
use crate::words::read_area;
use ads_base::NoMemory;
use description_table::{WrittenPort, WrittenSymbol};
use std::alloc::Global;
use type_layout::Area;

/// The bytes of a symbol, and whether it has an area and lies within it.
#[derive(Clone, Copy)]
pub struct Placed {
    pub area: Area,
    pub offset: u64,
    pub size: u128,
    pub right: bool,
}

/// Rule 12: places of symbols.
#[tactic(auto, unfolding(spec_rules::specs::SymbolRules::wrong_place))]
pub fn wrong_place(
    alloc: Global,
    known: &KnownTypes,
    ports: &[WrittenPort<'_>],
) -> Result<Option<u128>, NoMemory>
    requires known { IsKnown known.now }
    ensures { IfOk result (λ place. place ≡ wrong_place (types_of known.now.types) (map port_view ports.now)) }
{
    let mut count: u128 = 0;
    for port in ports {
        if let Some(place) = wrong_place_in(alloc, known, port)? {
            return Ok(Some(count + place as u128));
        }
        count += port.symbols.len() as u128;
    }
    Ok(None)
}

fn wrong_place_in(
    alloc: Global,
    known: &KnownTypes,
    port: &WrittenPort<'_>,
) -> Result<Option<usize>, NoMemory>
    requires known { IsKnown known.now }
    ensures { IfOk result (λ place. place ≡ first_wrong (is_right_place (types_of known.now.types) (port_view port.now)) []
        (map symbol_view port.now.symbols.items)) }
{
    let mut taken = Vec::new(alloc);
    first_wrong_place(&mut taken, known, port, port.symbols.as_slice())
}

fn first_wrong_place(
    taken: &mut Vec<ByteRange>,
    known: &KnownTypes,
    port: &WrittenPort<'_>,
    symbols: &[WrittenSymbol<'_>],
) -> Result<Option<usize>, NoMemory>
    requires known { IsKnown known.now }
    requires taken { taken.old.items ≡ [] }
    ensures { IfOk result (λ place. place ≡ first_wrong is_right_behind []
        (map (symbol_place (types_of known.now.types) (sizes_described (port_view port.now))) symbols.now)) }
{
    for (i, symbol) in symbols.iter().enumerate() {
        let place = place_of(known, port, symbol);
        if !take_place(taken, place)? {
            return Ok(Some(i));
        }
    }
    Ok(None)
}

// Takes the bytes of a symbol, and tells whether it is rightly placed and none of them was taken before.
fn take_place(taken: &mut Vec<ByteRange>, place: Placed) -> Result<bool, NoMemory>
    requires order { AreInOrder taken.old.items }
    requires within { place.right ≡ true → place.offset + place.size < 2 ^ 64 }
    ensures { IfOk result (TakesPlace (place_view place) taken.old.items taken.new.items) }
{
    if !place.right {
        return Ok(false);
    }
    take_range(taken, range_of(place))
}

// The bytes of a symbol among those of all areas, each of which has room for 64 bits.
fn range_of(place: Placed) -> ByteRange
    requires { place.offset + place.size < 2 ^ 64 }
    ensures { result ≡ range_of (place_view place) }
{
    let start = area_number(place.area) as u128 * 18_446_744_073_709_551_616 + place.offset as u128;
    ByteRange {
        start,
        end: start + place.size,
    }
}

fn place_of(known: &KnownTypes, port: &WrittenPort<'_>, symbol: &WrittenSymbol<'_>) -> Placed
    requires known { IsKnown known.now }
    ensures place { place_view result ≡ place_of (types_of known.now.types) (sizes_described (port_view port.now)) (symbol_view symbol.now) }
    ensures within { result.right ≡ true → result.offset + result.size < 2 ^ 64 }
{
    let size = text_size(known, symbol.kind);
    let offset = natural_of(symbol.offset);
    match read_area(symbol.area) {
        None => Placed {
            area: Area::Inputs,
            offset,
            size,
            right: false,
        },
        Some(area) => Placed {
            area,
            offset,
            size,
            right: is_natural(symbol.offset)
                && offset as u128 + size <= area_size(port, area) as u128,
        },
    }
}

fn area_size(port: &WrittenPort<'_>, area: Area) -> u64
    ensures { result ≡ size_in (sizes_described (port_view port.now)) (area_of area) }
{
    match area {
        Area::Inputs => natural_of(port.inputs),
        Area::Outputs => natural_of(port.outputs),
        Area::Memory => natural_of(port.memory),
        Area::Process => natural_of(port.process),
    }
}

fn area_number(area: Area) -> u8
    ensures value { result ≡ area_number (area_of area) }
    ensures bound { result < 4 }
{
    match area {
        Area::Inputs => 0,
        Area::Outputs => 1,
        Area::Memory => 2,
        Area::Process => 3,
    }
}

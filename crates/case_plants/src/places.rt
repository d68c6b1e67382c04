//! Areas and places, and the reload of the cases.

ghost use Rattle.std.specs.Prelude.{◌≡◌, ◌<◌, ◌≤◌, ◌+◌, IfOk, IsTrue};
ghost use Rattle.symbol_table.specs.Moves.{IsInOldWorld, IsWithin};
ghost use Rattle.type_layout.specs.declared.port.Area.TheVariants.{Process};
ghost use Rattle.case_plants.specs.Reload.{kept_at, placed, reload};

use ads_base::NoMemory;
use case_sheets::{Answer, Args};
use std::alloc::Global;
use symbol_table::{KeptList, KeptPlace, Moves, Place};
use type_layout::Area;

/// The next word as an area.
pub fn area(args: &mut Args<'_>) -> Area {
    match args.name() {
        "inputs" => Area::Inputs,
        "outputs" => Area::Outputs,
        "memory" => Area::Memory,
        "data" => Area::Process,
        _ => {
            args.refuse();
            Area::Process
        }
    }
}

pub fn say_area(area: Area, answer: &mut Answer) {
    answer.say(match area {
        Area::Inputs => "inputs",
        Area::Outputs => "outputs",
        Area::Memory => "memory",
        Area::Process => "data",
    });
}

/// SYMBOL AREA AT LEN
pub fn place(args: &mut Args<'_>) -> Place {
    Place {
        symbol: args.u32(),
        area: area(args),
        at: args.u32(),
        len: args.u32(),
    }
}

pub fn say_place(place: &Place, answer: &mut Answer) {
    answer.tell(u64::from(place.symbol));
    say_area(place.area, answer);
    answer.tell(u64::from(place.at));
    answer.tell(u64::from(place.len));
}

/// The reload of the cases. Port 851 keeps three symbols: number 2, four bytes from data byte 0 on, becomes number 5, from
/// memory byte 100 on; number 3, eight bytes from data byte 4 on, becomes number 0, from data byte 0 on; number 4, of no
/// byte at data byte 8, becomes number 1 there.
pub fn moves(alloc: Global) -> Result<Moves, NoMemory>
    ensures { IfOk result (λ moves. moves ≡ reload) }
{
    let mut kept = KeptList::new(alloc);
    let first = whole(2, Area::Process, 0, 4);
    let second = whole(3, Area::Process, 4, 8);
    let empty = whole(4, Area::Process, 8, 0);
    kept.push(alloc, entry(first, whole(5, Area::Memory, 100, 4)))?;
    kept.push(alloc, entry(second, whole(0, Area::Process, 0, 8)))?;
    kept.push(alloc, entry(empty, whole(1, Area::Process, 8, 0)))?;
    Moves::build(alloc, &kept)
}

fn whole(symbol: u32, area: Area, at: u32, len: u32) -> Place
    ensures { result ≡ placed symbol area at len }
{
    Place {
        symbol,
        area,
        at,
        len,
    }
}

fn entry(from: Place, to: Place) -> KeptPlace
    ensures { result ≡ kept_at from to }
{
    KeptPlace {
        port: 851,
        from,
        to,
    }
}

/// Whether a place lies within its symbol's old place, where the reload keeps the symbol.
pub fn is_in_old_world(port: u16, p: &Place) -> bool
    ensures { IsTrue result → IsInOldWorld reload port p.now }
{
    if port != 851 {
        return true;
    }
    match p.symbol {
        2 => is_within(p, 0, 4),
        3 => is_within(p, 4, 8),
        4 => is_within(p, 8, 0),
        _ => true,
    }
}

// Whether a place lies within so many bytes of the data area.
fn is_within(p: &Place, at: u32, len: u32) -> bool
    requires { at + len < 100 }
    ensures { IsTrue result → IsWithin p.now (placed p.now.symbol Process at len) }
{
    p.area == Area::Process
        && at <= p.at
        && u64::from(p.at) + u64::from(p.len) <= u64::from(at + len)
}

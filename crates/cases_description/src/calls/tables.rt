//! Calls of symbol_table, over the port of a description.

ghost use Rattle.std.specs.Prelude.{◌≡◌, ◌<◌, length, IfSome};
ghost use Rattle.spec_plant.specs.Description.{size_in};
ghost use Rattle.type_layout.specs.Descriptions.{area_of, port_of, sizes_of};
ghost use Rattle.type_layout.specs.NamedTypes.{types_of};
ghost use Rattle.symbol_table.specs.Tables.{IsPlaced, IsTableWith};

use ads_base::{NoMemory, Octets, Steps};
use case_plants::{area, description_of, is_in_old_world, moves, place, say_area, say_place};
use case_sheets::{Answer, Args, Fault};
use name_paths::Path;
use std::alloc::Global;
use std::marker::Brand;
use std::sync::ledger::{Blank, Ledger};
use symbol_table::{Found, Table, Tile};
use type_layout::{Area, PortDesc, Sizes, Types};

pub fn make(
    alloc: Global,
    call: &str,
    args: &mut Args<'_>,
    answer: &mut Answer,
) -> Result<(), Fault> {
    match call {
        "moves.place" => moved_place(alloc, args, answer)?,
        "moves.span" => moved_span(alloc, args, answer)?,
        _ => of_port(alloc, call, args, answer)?,
    }
    Ok(())
}

// DESCRIPTION PORT, and what is asked of the port's table.
fn of_port(
    alloc: Global,
    call: &str,
    args: &mut Args<'_>,
    answer: &mut Answer,
) -> Result<(), Fault> {
    let d = description_of(alloc, args)?;
    let number = args.u16();
    match place_of(d.ports.as_slice(), number) {
        Some(i) => of_table(alloc, &d.ports.as_slice()[i], &d.types, call, args, answer),
        None => Err(Fault::BadArgument),
    }
}

fn place_of(ports: &[PortDesc], number: u16) -> Option<usize>
    ensures { IfSome result (λ i. i < length ports.now) }
{
    ports.iter().position(|port| port.port == number)
}

fn of_table(
    alloc: Global,
    port: &PortDesc,
    types: &Types,
    call: &str,
    args: &mut Args<'_>,
    answer: &mut Answer,
) -> Result<(), Fault>
    requires { IsPlaced (types_of types.now) (port_of port.now) }
{
    let table = Table::build(alloc, port, types)?;
    match call {
        "find" => find(&table, types, args, answer),
        "find_all" => find_all(alloc, &table, types, args, answer)?,
        "named" => match table.named(alloc, args.octets().as_slice())? {
            Some(number) => answer.tell(u64::from(number)),
            None => answer.say("none"),
        },
        "tile" => tile(&table, port.sizes, args, answer),
        "symbols_in" => symbols_in(&table, port.sizes, args, answer),
        "by_place" => say_numbers(table.by_place(), answer),
        _ => return Err(Fault::NoCall),
    }
    Ok(())
}

// A path.
fn find(table: &Table, types: &Types, args: &mut Args<'_>, answer: &mut Answer)
    requires { IsTableWith (types_of types.now) table.now }
{
    let text = args.octets();
    let Some(path) = Path::read(text.as_slice()) else {
        answer.say("no path");
        return;
    };
    match found(table, types, &path) {
        Some(found) => {
            say_place(&found.place, answer);
            answer.quote(found.comment);
        }
        None => answer.say("none"),
    }
}

// Paths, which are looked up in turn, so many times all of them: what each leads to.
fn find_all(
    alloc: Global,
    table: &Table,
    types: &Types,
    args: &mut Args<'_>,
    answer: &mut Answer,
) -> Result<(), Fault>
    requires { IsTableWith (types_of types.now) table.now }
{
    let times = args.u64();
    let texts = texts_of(alloc, args)?;
    for _ in 0..times {
        look_up_each(table, types, texts.as_slice());
    }
    for text in texts.as_slice() {
        say_found(table, types, text.as_slice(), answer);
    }
    Ok(())
}

// The words that are left.
fn texts_of(alloc: Global, args: &mut Args<'_>) -> Result<Vec<Octets>, Fault> {
    let mut texts = Vec::new(alloc);
    for _ in 0..args.rest().len() {
        if !args.has_more() {
            break;
        }
        texts.push(args.octets())?;
    }
    Ok(texts)
}

fn look_up_each(table: &Table, types: &Types, texts: &[Octets])
    requires { IsTableWith (types_of types.now) table.now }
{
    for text in texts {
        if let Some(path) = Path::read(text.as_slice()) {
            let _ = found(table, types, &path);
        }
    }
}

fn say_found(table: &Table, types: &Types, text: &[u8], answer: &mut Answer)
    requires { IsTableWith (types_of types.now) table.now }
{
    let Some(path) = Path::read(text) else {
        answer.say("no path");
        return;
    };
    match found(table, types, &path) {
        Some(found) => answer.tell(u64::from(found.place.symbol)),
        None => answer.say("none"),
    }
}

fn found<'a>(table: &'a Table, types: &'a Types, path: &Path<'_>) -> Option<Found<'a>>
    requires { IsTableWith (types_of types.now) table.now }
{
    found_counted::<Brand>(table, types, path, Blank::new(1))
}

fn found_counted<'a, L: Ledger>(
    table: &'a Table,
    types: &'a Types,
    path: &Path<'_>,
    blank: Blank,
) -> Option<Found<'a>>
    requires name { blank.name ≡ L.name }
    requires parts { blank.parts ≡ L.parts }
    requires some { 0 < blank.parts }
    requires table { IsTableWith (types_of types.now) table.now }
{
    let mut steps: Steps<L> = Steps::open(blank);
    table.find(types, path, &mut steps)
}

// AREA AT
fn tile(table: &Table, sizes: Sizes, args: &mut Args<'_>, answer: &mut Answer)
    requires { table.now.sizes ≡ sizes_of sizes }
{
    let area = area(args);
    let at = args.u32();
    if at >= size_of(sizes, area) {
        args.refuse();
        return;
    }
    match table.tile(area, at) {
        Tile::Symbol(number) => answer.name("symbol", u64::from(number)),
        Tile::Gap { at, len } => {
            answer.name("gap", u64::from(at));
            answer.tell(u64::from(len));
        }
    }
}

fn size_of(sizes: Sizes, area: Area) -> u32
    ensures { result ≡ size_in (sizes_of sizes) (area_of area) }
{
    match area {
        Area::Inputs => sizes.inputs,
        Area::Outputs => sizes.outputs,
        Area::Memory => sizes.memory,
        Area::Process => sizes.process,
    }
}

// AREA AT LEN: the numbers of the symbols that have one of the bytes.
fn symbols_in(table: &Table, sizes: Sizes, args: &mut Args<'_>, answer: &mut Answer)
    requires { table.now.sizes ≡ sizes_of sizes }
{
    let area = area(args);
    let at = args.u32();
    let len = args.u32();
    let size = size_of(sizes, area);
    if at > size || len > size - at {
        args.refuse();
        return;
    }
    say_numbers(table.symbols_in(area, at, len), answer);
}

fn say_numbers(numbers: &[u32], answer: &mut Answer) {
    for number in numbers {
        answer.tell(u64::from(*number));
    }
    answer.say("end");
}

// PORT, and a place of the old world
fn moved_place(alloc: Global, args: &mut Args<'_>, answer: &mut Answer) -> Result<(), NoMemory> {
    let moves = moves(alloc)?;
    let port = args.u16();
    let old = place(args);
    if !is_in_old_world(port, &old) {
        args.refuse();
        return Ok(());
    }
    match moves.place(port, old) {
        Some(new) => say_place(&new, answer),
        None => answer.say("none"),
    }
    Ok(())
}

// PORT AREA AT LEN
fn moved_span(alloc: Global, args: &mut Args<'_>, answer: &mut Answer) -> Result<(), NoMemory> {
    let moves = moves(alloc)?;
    let port = args.u16();
    let from = area(args);
    let at = args.u32();
    let len = args.u32();
    if len == 0 {
        args.refuse();
        return Ok(());
    }
    match moves.span(port, from, at, len) {
        Some((to, at)) => {
            say_area(to, answer);
            answer.tell(u64::from(at));
        }
        None => answer.say("none"),
    }
    Ok(())
}

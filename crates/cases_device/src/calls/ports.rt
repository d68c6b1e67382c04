//! Calls of port_device: the ports of a description, and what they answer.

ghost use Rattle.std.specs.Prelude.{IfOk};
ghost use Rattle.index_groups.specs.Access.{IsWithin};
ghost use Rattle.type_layout.specs.Descriptions.{description_of};
ghost use Rattle.port_device.specs.Holds.{WasAccepted};

use crate::calls::routes::rights_of;
use ads_base::Octets;
use ads_commands::DeviceFacts;
use case_plants::{area, description_of, raw, say_area, say_place};
use case_sheets::{Answer, Args, Fault};
use index_groups::{Reach, reach};
use port_device::{Port, Ports};
use return_codes::Code;
use signals::{Bank, Ramp, Signal, Square, Table8};
use std::alloc::Global;
use type_layout::{Description, Sizes};

/// The ports of a description, and how often their signals have stepped.
#[derive(Drop)]
pub struct Plant {
    ports: Ports,
    ticks: u64,
}

pub fn make(
    alloc: Global,
    plant: &mut Option<Plant>,
    call: &str,
    args: &mut Args<'_>,
    answer: &mut Answer,
) -> Result<(), Fault> {
    match call {
        "build" => build(alloc, plant, args, answer),
        "moves" => moves(alloc, args, answer),
        _ => match plant {
            Some(plant) => of_plant(alloc, plant, call, args, answer),
            None => Err(Fault::BadArgument),
        },
    }
}

fn of_plant(
    alloc: Global,
    plant: &mut Plant,
    call: &str,
    args: &mut Args<'_>,
    answer: &mut Answer,
) -> Result<(), Fault> {
    match call {
        "version" => {
            answer.tell(u64::from(plant.ports.version()));
            Ok(())
        }
        "step" => step(alloc, plant, args, answer),
        "reload" => reload(alloc, plant, args, answer),
        "write" | "write_place" | "control" => write_to(plant, call, args, answer),
        _ => ask_of(alloc, plant, call, args, answer),
    }
}

// The description of the next word.
fn accepted(alloc: Global, args: &mut Args<'_>) -> Result<Description, Fault>
    ensures { IfOk result (λ d. WasAccepted (description_of d)) }
{
    description_of(alloc, args)
}

// DESCRIPTION: the numbers of those of its ports that are found.
#[tactic(auto, using(port_device::proofs::BuiltLemmas::accepted_may_be_built))]
fn build(
    alloc: Global,
    plant: &mut Option<Plant>,
    args: &mut Args<'_>,
    answer: &mut Answer,
) -> Result<(), Fault> {
    let d = accepted(alloc, args)?;
    let ports = Ports::build(alloc, &d)?;
    for port in d.ports.as_slice() {
        if ports.find(port.port).is_some() {
            answer.tell(u64::from(port.port));
        }
    }
    *plant = Some(Plant { ports, ticks: 0 });
    Ok(())
}

// DESCRIPTION, and perhaps how often: the version at the end.
fn reload(
    alloc: Global,
    plant: &mut Plant,
    args: &mut Args<'_>,
    answer: &mut Answer,
) -> Result<(), Fault> {
    let d = accepted(alloc, args)?;
    for _ in 0..times(args) {
        plant.ports = plant.ports.reload(alloc, &d)?;
    }
    answer.tell(u64::from(plant.ports.version()));
    Ok(())
}

// How often something is done, once where no number stands there.
fn times(args: &mut Args<'_>) -> u32 {
    if args.has_more() { args.u32() } else { 1 }
}

// Perhaps how often: the signals of the program step.
fn step(
    alloc: Global,
    plant: &mut Plant,
    args: &mut Args<'_>,
    answer: &mut Answer,
) -> Result<(), Fault> {
    let mut list: Vec<Box<dyn Signal>> = Vec::new(alloc);
    list.push(Box::new(alloc, Ramp::new(1000))?)?;
    list.push(Box::new(alloc, Square::new(0, 1, 10))?)?;
    let table = Table8::new(alloc, &[3, 1, 4, 1, 5, 9, 2, 6])?;
    list.push(Box::new(alloc, table)?)?;
    if list.len() > 16 {
        return Err(Fault::BadArgument);
    }
    tick(Bank::new(list), plant, times(args));
    answer.say("done");
    Ok(())
}

// So many ticks, with the signals where the ticks before have left them.
fn tick(mut bank: Bank, plant: &mut Plant, times: u32) {
    for _ in 0..plant.ticks {
        pass(&mut bank);
    }
    for _ in 0..times {
        plant.ports.step_signals(&mut bank);
    }
    plant.ticks = plant.ticks.saturating_add(u64::from(times));
}

fn pass(bank: &mut Bank) {
    for n in 0..3u32 {
        if n < bank.count() {
            let _ = bank.step(n);
        }
    }
}

// DESCRIPTION LATER PORT AREA AT LEN: where a reload of the later description puts these bytes.
#[tactic(auto, using(port_device::proofs::BuiltLemmas::accepted_may_be_built))]
fn moves(alloc: Global, args: &mut Args<'_>, answer: &mut Answer) -> Result<(), Fault> {
    let before = accepted(alloc, args)?;
    let after = accepted(alloc, args)?;
    let old = Ports::build(alloc, &before)?;
    let new = old.reload(alloc, &after)?;
    let moves = old.moves(alloc, &new)?;
    let port = args.u16();
    let from = area(args);
    let at = args.u32();
    let len = args.u32();
    if len == 0 {
        return Err(Fault::BadArgument);
    }
    match moves.span(port, from, at, len) {
        Some((to, at)) => {
            say_area(to, answer);
            answer.tell(u64::from(at));
        }
        None => answer.say("none"),
    }
    Ok(())
}

// PORT, and what is written there.
fn write_to(
    plant: &mut Plant,
    call: &str,
    args: &mut Args<'_>,
    answer: &mut Answer,
) -> Result<(), Fault> {
    match plant.ports.find_mut(args.u16()) {
        Some(port) => say_done(change(port, call, args), answer),
        None => say_none(args, answer),
    }
    Ok(())
}

fn change(port: &mut Port, call: &str, args: &mut Args<'_>) -> Result<(), Code> {
    match call {
        "write" => write(port, args),
        "write_place" => write_place(port, args),
        _ => port.control(args.u16(), args.u16(), rights_of(args)),
    }
}

// GROUP OFFSET BYTES RIGHTS NETID
fn write(port: &mut Port, args: &mut Args<'_>) -> Result<(), Code> {
    let group = args.u32();
    let offset = args.u32();
    let bytes = args.octets();
    let rights = rights_of(args);
    port.write(group, offset, bytes.as_slice(), rights, args.net())
}

// NAME BYTES RIGHTS NETID
fn write_place(port: &mut Port, args: &mut Args<'_>) -> Result<(), Code> {
    let name = args.octets();
    let bytes = args.octets();
    let rights = rights_of(args);
    let net = args.net();
    match port.place(name.as_slice()) {
        Ok(place) => port.write_place(place, bytes.as_slice(), rights, net),
        Err(code) => Err(code),
    }
}

// PORT, and what is asked of it.
fn ask_of(
    alloc: Global,
    plant: &Plant,
    call: &str,
    args: &mut Args<'_>,
    answer: &mut Answer,
) -> Result<(), Fault> {
    match plant.ports.find(args.u16()) {
        Some(port) => of_port(alloc, port, call, args, answer),
        None => {
            say_none(args, answer);
            Ok(())
        }
    }
}

// There is no such port, and nothing is done with the other arguments.
fn say_none(args: &mut Args<'_>, answer: &mut Answer) {
    let _ = raw(args);
    answer.say("none");
}

fn of_port(
    alloc: Global,
    port: &Port,
    call: &str,
    args: &mut Args<'_>,
    answer: &mut Answer,
) -> Result<(), Fault> {
    match call {
        "read" => read(alloc, port, args, answer),
        "count" => count(alloc, port, args, answer),
        "ask" => ask(alloc, port, args, answer),
        "read_place" => read_place(alloc, port, args, answer),
        _ => look(port, call, args, answer),
    }
}

// What takes no memory.
fn look(port: &Port, call: &str, args: &mut Args<'_>, answer: &mut Answer) -> Result<(), Fault> {
    match call {
        "place" => place(port, args, answer),
        "peek" => peek(port, args, answer),
        "state" => say_state(port.state(), answer),
        "facts" => say_facts(&port.facts(), answer),
        "sizes" => say_sizes(port.sizes(), answer),
        "port_version" => answer.tell(u64::from(port.version())),
        _ => return Err(Fault::NoCall),
    }
    Ok(())
}

// GROUP OFFSET LEN
fn read(alloc: Global, port: &Port, args: &mut Args<'_>, answer: &mut Answer) -> Result<(), Fault> {
    let mut out = Octets::new(alloc);
    let done = port.read(alloc, args.u32(), args.u32(), args.u32(), &mut out)?;
    say_data(done, &out, answer);
    Ok(())
}

// GROUP OFFSET LEN: how many bytes a read gives.
fn count(
    alloc: Global,
    port: &Port,
    args: &mut Args<'_>,
    answer: &mut Answer,
) -> Result<(), Fault> {
    let mut out = Octets::new(alloc);
    match port.read(alloc, args.u32(), args.u32(), args.u32(), &mut out)? {
        Ok(()) => answer.tell(out.len() as u64),
        Err(code) => answer.tell_code(code.number()),
    }
    Ok(())
}

// GROUP LEN NAME
fn ask(alloc: Global, port: &Port, args: &mut Args<'_>, answer: &mut Answer) -> Result<(), Fault> {
    let group = args.u32();
    let len = args.u32();
    let name = args.octets();
    let mut out = Octets::new(alloc);
    let done = port.ask(alloc, group, len, name.as_slice(), &mut out)?;
    say_data(done, &out, answer);
    Ok(())
}

// NAME LEN
fn read_place(
    alloc: Global,
    port: &Port,
    args: &mut Args<'_>,
    answer: &mut Answer,
) -> Result<(), Fault> {
    let name = args.octets();
    let len = args.u32();
    let mut out = Octets::new(alloc);
    match port.place(name.as_slice()) {
        Ok(place) => {
            let done = port.read_place(alloc, place, len, &mut out)?;
            say_data(done, &out, answer);
        }
        Err(code) => answer.tell_code(code.number()),
    }
    Ok(())
}

// NAME
fn place(port: &Port, args: &mut Args<'_>, answer: &mut Answer) {
    match port.place(args.octets().as_slice()) {
        Ok(place) => say_place(&place, answer),
        Err(code) => answer.tell_code(code.number()),
    }
}

// GROUP OFFSET LEN, at most 16 bytes
fn peek(port: &Port, args: &mut Args<'_>, answer: &mut Answer) {
    match reach(port.sizes(), args.u32(), args.u32(), args.u32()) {
        Ok(range) => peek_at(port, range, args, answer),
        Err(code) => answer.tell_code(code.number()),
    }
}

fn peek_at(port: &Port, range: Reach, args: &mut Args<'_>, answer: &mut Answer)
    requires { IsWithin port.now.table.sizes range }
{
    let mut room = [0u8; 16];
    match range {
        Reach::Bytes {
            area: _,
            at: _,
            len,
        } if len <= 16 => {
            let bytes = &mut room[..len as usize];
            port.peek(range, bytes);
            answer.hex(bytes);
        }
        Reach::Bit { .. } => {
            let bytes = &mut room[..1];
            port.peek(range, bytes);
            answer.hex(bytes);
        }
        _ => args.refuse(),
    }
}

fn say_data(done: Result<(), Code>, out: &Octets, answer: &mut Answer) {
    match done {
        Ok(()) => answer.hex(out.as_slice()),
        Err(code) => answer.tell_code(code.number()),
    }
}

fn say_done(done: Result<(), Code>, answer: &mut Answer) {
    match done {
        Ok(()) => answer.say("ok"),
        Err(code) => answer.tell_code(code.number()),
    }
}

// The ADS state and the device state.
fn say_state(state: (u16, u16), answer: &mut Answer) {
    answer.tell(u64::from(state.0));
    answer.tell(u64::from(state.1));
}

fn say_facts(facts: &DeviceFacts, answer: &mut Answer) {
    answer.tell(u64::from(facts.major));
    answer.tell(u64::from(facts.minor));
    answer.tell(u64::from(facts.build));
    answer.quote(&facts.name);
}

fn say_sizes(sizes: &Sizes, answer: &mut Answer) {
    answer.tell(u64::from(sizes.inputs));
    answer.tell(u64::from(sizes.outputs));
    answer.tell(u64::from(sizes.memory));
    answer.tell(u64::from(sizes.process));
}

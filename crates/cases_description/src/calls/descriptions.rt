//! Calls of symbol_file.

use case_plants::{description_of, filled, raw, say_area};
use case_sheets::{Answer, Args, Fault};
use std::alloc::Global;
use symbol_file::{DescFault, read};
use type_layout::{Description, Elem, NamedType, PortDesc, Rights, RouteDesc, Shape, SymbolDesc};

pub fn make(
    alloc: Global,
    call: &str,
    args: &mut Args<'_>,
    answer: &mut Answer,
) -> Result<(), Fault> {
    match call {
        "read" => read_one(alloc, args, answer),
        "fill" => fill(alloc, args, answer),
        _ => show_one(alloc, call, args, answer),
    }
}

// SIGNALS TEXT
fn read_one(alloc: Global, args: &mut Args<'_>, answer: &mut Answer) -> Result<(), Fault> {
    let signals = args.u32();
    let text = args.octets();
    judge(alloc, signals, text.as_slice(), answer)
}

fn show_one(
    alloc: Global,
    call: &str,
    args: &mut Args<'_>,
    answer: &mut Answer,
) -> Result<(), Fault> {
    let description = description_of(alloc, args)?;
    show(&description, call, args, answer)
}

// SIGNALS FRAME PART
fn fill(alloc: Global, args: &mut Args<'_>, answer: &mut Answer) -> Result<(), Fault> {
    let signals = args.u32();
    let frame = args.octets();
    let part = raw(args);
    let text = filled(alloc, frame.as_slice(), part)?;
    judge(alloc, signals, text.as_bytes(), answer)
}

fn judge(alloc: Global, signals: u32, text: &[u8], answer: &mut Answer) -> Result<(), Fault> {
    match read(alloc, text, signals)? {
        Ok(_) => answer.say("accepted"),
        Err(DescFault::Syntax) => answer.say("syntax"),
        Err(DescFault::Rule { number, item }) => {
            answer.name("rule", u64::from(number));
            answer.name("item", u64::from(item));
        }
    }
    Ok(())
}

// What a description says: of the machine, or of a route, a type, a part of a type, a port or a symbol, by their places.
fn show(
    d: &Description,
    call: &str,
    args: &mut Args<'_>,
    answer: &mut Answer,
) -> Result<(), Fault> {
    let place = if args.has_more() { args.u32() } else { 0 } as usize;
    match call {
        "net" => say_machine(d, answer),
        "route" => match d.routes.as_slice().get(place) {
            Some(route) => say_route(route, answer),
            None => args.refuse(),
        },
        "type" | "part" => match d.types.as_slice().get(place) {
            Some(kind) => say_type_or_part(call, kind, args, answer),
            None => args.refuse(),
        },
        "port" | "symbol" => match d.ports.as_slice().get(place) {
            Some(port) => say_port_or_symbol(call, port, args, answer),
            None => args.refuse(),
        },
        _ => return Err(Fault::NoCall),
    }
    Ok(())
}

fn say_type_or_part(call: &str, kind: &NamedType, args: &mut Args<'_>, answer: &mut Answer) {
    if call == "type" {
        say_type(kind, answer);
    } else {
        say_part(kind, args, answer);
    }
}

fn say_port_or_symbol(call: &str, port: &PortDesc, args: &mut Args<'_>, answer: &mut Answer) {
    if call == "port" {
        say_port(port, answer);
    } else {
        say_symbol_of(port, args, answer);
    }
}

fn say_machine(d: &Description, answer: &mut Answer) {
    answer.tell_net(d.net);
    answer.name("routes", d.routes.len() as u64);
    answer.name("types", d.types.len() as u64);
    answer.name("ports", d.ports.len() as u64);
}

fn say_route(route: &RouteDesc, answer: &mut Answer) {
    answer.tell_net(route.net);
    answer.say(match route.rights {
        Rights::Read => "read",
        Rights::Write => "write",
        Rights::Control => "control",
    });
}

fn say_type(kind: &NamedType, answer: &mut Answer) {
    match kind {
        NamedType::Struct(s) => {
            answer.say("structure");
            answer.quote(s.name.as_slice());
            answer.name("members", s.members.len() as u64);
        }
        NamedType::Enum(e) => {
            answer.say("enumeration");
            answer.quote(e.name.as_slice());
            answer.tell_kind(e.base);
            answer.name("values", e.values.len() as u64);
        }
    }
}

// The place of the member, or of the value.
fn say_part(kind: &NamedType, args: &mut Args<'_>, answer: &mut Answer) {
    let place = args.u32() as usize;
    match kind {
        NamedType::Struct(s) => match s.members.as_slice().get(place) {
            Some(member) => {
                answer.quote(member.name.as_slice());
                say_shape(&member.kind, answer);
                answer.quote(member.comment.as_slice());
            }
            None => args.refuse(),
        },
        NamedType::Enum(e) => match e.values.as_slice().get(place) {
            Some(value) => {
                answer.quote(value.name.as_slice());
                answer.tell_signed(value.number);
            }
            None => args.refuse(),
        },
    }
}

fn say_port(port: &PortDesc, answer: &mut Answer) {
    answer.tell(u64::from(port.port));
    answer.quote(&port.facts.name);
    answer.tell(u64::from(port.facts.major));
    answer.tell(u64::from(port.facts.minor));
    answer.tell(u64::from(port.facts.build));
    answer.name("inputs", u64::from(port.sizes.inputs));
    answer.name("outputs", u64::from(port.sizes.outputs));
    answer.name("memory", u64::from(port.sizes.memory));
    answer.name("data", u64::from(port.sizes.process));
    answer.name("symbols", port.symbols.len() as u64);
}

// The place of the symbol.
fn say_symbol_of(port: &PortDesc, args: &mut Args<'_>, answer: &mut Answer) {
    match port.symbols.as_slice().get(args.u32() as usize) {
        Some(symbol) => say_symbol(symbol, answer),
        None => args.refuse(),
    }
}

// What the optional keys say stands at the end, where they are there.
fn say_symbol(symbol: &SymbolDesc, answer: &mut Answer) {
    answer.quote(symbol.name.as_slice());
    say_shape(&symbol.kind, answer);
    say_area(symbol.area, answer);
    answer.tell(u64::from(symbol.at));
    answer.hex(symbol.initial.as_slice());
    if symbol.persistent {
        answer.say("persistent");
    }
    if symbol.read_only {
        answer.say("read_only");
    }
    if let Some(signal) = symbol.signal {
        answer.name("signal", u64::from(signal));
    }
    for net in symbol.writers.as_slice() {
        answer.say("writer");
        answer.tell_net(*net);
    }
    answer.quote(symbol.comment.as_slice());
}

/// The first index and the number of indexes of each dimension, and the element.
fn say_shape(shape: &Shape, answer: &mut Answer) {
    match shape {
        Shape::One(elem) => say_elem(*elem, answer),
        Shape::Array(bounds, elem) => {
            for bound in bounds.as_slice() {
                answer.say("from");
                answer.tell_signed(i64::from(bound.low));
                answer.name("times", u64::from(bound.count));
            }
            say_elem(*elem, answer);
        }
    }
}

fn say_elem(elem: Elem, answer: &mut Answer) {
    match elem {
        Elem::Plain(kind) => answer.tell_kind(kind),
        Elem::Text(n) => answer.name("text", u64::from(n)),
        Elem::Struct(place) => answer.name("structure", u64::from(place)),
        Elem::Enum(place) => answer.name("enumeration", u64::from(place)),
    }
}

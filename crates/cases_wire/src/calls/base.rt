//! Calls of ads_base.

use ads_base::{
    Calls, NetId, NoMemory, Octets, get16, get32, get64, put16, put32, put64, read_decimal,
    split_decimal,
};
use case_sheets::{Answer, Args, Fault};
use std::alloc::Global;

pub fn make(
    alloc: Global,
    call: &str,
    args: &mut Args<'_>,
    answer: &mut Answer,
) -> Result<(), Fault> {
    match call {
        "read_decimal" => decimal(args, answer),
        "split_decimal" => decimal_before_colon(args, answer),
        "net_id.read" => net_read(args, answer),
        "net_id.write" => net_written(alloc, args, answer)?,
        "put" => numbers_put(alloc, args, answer)?,
        "get" => number_got(args, answer),
        "octets" => octets(alloc, args, answer)?,
        "calls" => calls(alloc, args, answer)?,
        _ => return Err(Fault::NoCall),
    }
    Ok(())
}

fn decimal(args: &mut Args<'_>, answer: &mut Answer) {
    let text = args.octets();
    match read_decimal(text.as_slice()) {
        Some(n) => answer.name("some", n),
        None => answer.say("none"),
    }
}

fn decimal_before_colon(args: &mut Args<'_>, answer: &mut Answer) {
    let text = args.octets();
    match split_decimal(text.as_slice(), b':') {
        Some((n, rest)) => {
            answer.name("some", n);
            answer.quote(rest);
        }
        None => answer.say("none"),
    }
}

fn net_read(args: &mut Args<'_>, answer: &mut Answer) {
    let text = args.octets();
    match NetId::read(text.as_slice()) {
        Some(net) => answer.hex(&net.bytes),
        None => answer.say("none"),
    }
}

// The six bytes.
fn net_written(alloc: Global, args: &mut Args<'_>, answer: &mut Answer) -> Result<(), NoMemory> {
    let bytes = args.octets();
    let [a, b, c, d, e, f] = bytes.as_slice() else {
        args.refuse();
        return Ok(());
    };
    let net = NetId {
        bytes: [*a, *b, *c, *d, *e, *f],
    };
    let mut out = Octets::new(alloc);
    net.write(alloc, &mut out)?;
    answer.quote(out.as_slice());
    Ok(())
}

// The width in bits and the number, again and again.
fn numbers_put(alloc: Global, args: &mut Args<'_>, answer: &mut Answer) -> Result<(), NoMemory> {
    let mut out = Octets::new(alloc);
    for _ in 0..usize::MAX {
        if !args.has_more() {
            break;
        }
        number_put(alloc, args, &mut out)?;
    }
    answer.hex(out.as_slice());
    Ok(())
}

fn number_put(alloc: Global, args: &mut Args<'_>, out: &mut Octets) -> Result<(), NoMemory> {
    match args.name() {
        "16" => put16(alloc, out, args.u16()),
        "32" => put32(alloc, out, args.u32()),
        "64" => put64(alloc, out, args.u64()),
        _ => {
            args.refuse();
            Ok(())
        }
    }
}

// The width in bits, the place, and the bytes.
fn number_got(args: &mut Args<'_>, answer: &mut Answer) {
    let width = args.name();
    let at = args.u32() as usize;
    let octets = args.octets();
    let bytes = octets.as_slice();
    match width {
        "16" if at + 2 <= bytes.len() => answer.tell(u64::from(get16(bytes, at))),
        "32" if at + 4 <= bytes.len() => answer.tell(u64::from(get32(bytes, at))),
        "64" if at + 8 <= bytes.len() => answer.tell(get64(bytes, at)),
        _ => args.refuse(),
    }
}

// What the bytes are at first, and changes: how many there are then, and the bytes as a text.
fn octets(alloc: Global, args: &mut Args<'_>, answer: &mut Answer) -> Result<(), NoMemory> {
    let begun = args.octets();
    let mut bytes = Octets::copy_of(alloc, begun.as_slice())?;
    for _ in 0..usize::MAX {
        if !args.has_more() {
            break;
        }
        match args.name() {
            "from_vec" => bytes = Octets::from_vec(bytes.into_vec()),
            change => octets_changed(alloc, change, args, &mut bytes)?,
        }
    }
    answer.tell(bytes.len() as u64);
    answer.quote(bytes.as_slice());
    Ok(())
}

fn octets_changed(
    alloc: Global,
    change: &str,
    args: &mut Args<'_>,
    bytes: &mut Octets,
) -> Result<(), NoMemory> {
    match change {
        "put" => {
            let more = args.octets();
            return bytes.put(alloc, more.as_slice());
        }
        "push" => return bytes.push(alloc, args.u8()),
        "reserve" => return bytes.reserve(alloc, args.u32() as usize),
        "cut" => bytes.cut((args.u32() as usize).min(bytes.len())),
        "reverse" => bytes.as_mut_slice().reverse(),
        _ => args.refuse(),
    }
    Ok(())
}

// Changes of an empty list: how many numbers there are then, and the numbers.
fn calls(alloc: Global, args: &mut Args<'_>, answer: &mut Answer) -> Result<(), NoMemory> {
    let mut list = Calls::new(alloc);
    for _ in 0..usize::MAX {
        if !args.has_more() {
            break;
        }
        match args.name() {
            "push" => list.push(alloc, args.u64())?,
            "reverse" => list.as_mut_slice().reverse(),
            "from_vec" => list = Calls::from_vec(list.into_vec()),
            _ => args.refuse(),
        }
    }
    say_calls(list.as_slice(), answer);
    Ok(())
}

fn say_calls(calls: &[u64], answer: &mut Answer) {
    answer.tell(calls.len() as u64);
    for n in calls {
        answer.tell(*n);
    }
}

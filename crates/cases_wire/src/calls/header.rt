//! Calls of ams_header.

use ads_base::{AmsAddr, NetId};
use ams_header::{Header, answer_of, put, read};
use case_sheets::{Answer, Args, Fault};

pub fn make(call: &str, args: &mut Args<'_>, answer: &mut Answer) -> Result<(), Fault> {
    match call {
        "read" => header_read(args, answer),
        "put" => header_put(args, answer),
        "answer_of" => answered(args, answer),
        _ => return Err(Fault::NoCall),
    }
    Ok(())
}

fn header_read(args: &mut Args<'_>, answer: &mut Answer) {
    let bytes = args.octets();
    match read(bytes.as_slice()) {
        Some((header, payload)) => {
            show(&header, answer);
            answer.say("payload");
            answer.hex(payload);
        }
        None => answer.say("none"),
    }
}

fn header_put(args: &mut Args<'_>, answer: &mut Answer) {
    let header = header_of(args);
    let mut out = [0xffu8; 32];
    put(&header, &mut out);
    answer.hex(&out);
}

// The header, then the error and the length of the answer.
fn answered(args: &mut Args<'_>, answer: &mut Answer) {
    let header = header_of(args);
    let error = args.u32();
    let len = args.u32();
    show(&answer_of(&header, error, len), answer);
}

// The fields in their order on the wire.
fn header_of(args: &mut Args<'_>) -> Header {
    Header {
        target: address_of(args),
        source: address_of(args),
        command: args.u16(),
        flags: args.u16(),
        len: args.u32(),
        error: args.u32(),
        id: args.u32(),
    }
}

// A NetId as its text, and a port.
fn address_of(args: &mut Args<'_>) -> AmsAddr {
    AmsAddr {
        net: args.net(),
        port: args.u16(),
    }
}

fn show(header: &Header, answer: &mut Answer) {
    show_address("target", &header.target, answer);
    show_address("source", &header.source, answer);
    answer.name("command", u64::from(header.command));
    answer.name("flags", u64::from(header.flags));
    answer.name("len", u64::from(header.len));
    answer.name("error", u64::from(header.error));
    answer.name("id", u64::from(header.id));
}

fn show_address(name: &str, address: &AmsAddr, answer: &mut Answer) {
    answer.say(name);
    answer.tell_net(address.net);
    answer.tell(u64::from(address.port));
}

//! Calls of ads_commands: requests.

use super::payloads::data_of;
use ads_base::{NoMemory, Octets};
use ads_commands::{ReadFault, Request, put_request, read_request};
use case_sheets::{Answer, Args};
use std::alloc::Global;

// The command, and the payload.
pub fn request_read(args: &mut Args<'_>, answer: &mut Answer) {
    let command = args.u16();
    let payload = args.octets();
    match read_request(command, payload.as_slice()) {
        Ok(request) => show(&request, answer),
        Err(ReadFault::BadCommand) => answer.say("bad_command"),
        Err(ReadFault::BadSize) => answer.say("bad_size"),
    }
}

// The request's name, its numbers and its data.
pub fn request_put(
    alloc: Global,
    args: &mut Args<'_>,
    answer: &mut Answer,
) -> Result<(), NoMemory> {
    let mut out = Octets::new(alloc);
    match args.name() {
        "device_info" => put_request(alloc, &Request::DeviceInfo, &mut out)?,
        "state" => put_request(alloc, &Request::State, &mut out)?,
        "read" => put_read(alloc, args, &mut out)?,
        "write" => put_write(alloc, args, &mut out)?,
        "control" => put_control(alloc, args, &mut out)?,
        "add" => put_add(alloc, args, &mut out)?,
        "delete" => put_delete(alloc, args, &mut out)?,
        "note" => put_note(alloc, args, &mut out)?,
        "read_write" => put_read_write(alloc, args, &mut out)?,
        _ => args.refuse(),
    }
    answer.hex(out.as_slice());
    Ok(())
}

fn put_read(alloc: Global, args: &mut Args<'_>, out: &mut Octets) -> Result<(), NoMemory> {
    let request = Request::Read {
        group: args.u32(),
        offset: args.u32(),
        len: args.u32(),
    };
    put_request(alloc, &request, out)
}

fn put_write(alloc: Global, args: &mut Args<'_>, out: &mut Octets) -> Result<(), NoMemory> {
    let group = args.u32();
    let offset = args.u32();
    let data = data_of(alloc, args);
    let request = Request::Write {
        group,
        offset,
        bytes: data.as_slice(),
    };
    put_request(alloc, &request, out)
}

fn put_control(alloc: Global, args: &mut Args<'_>, out: &mut Octets) -> Result<(), NoMemory> {
    let ads = args.u16();
    let device = args.u16();
    let data = data_of(alloc, args);
    let request = Request::Control {
        ads,
        device,
        bytes: data.as_slice(),
    };
    put_request(alloc, &request, out)
}

fn put_add(alloc: Global, args: &mut Args<'_>, out: &mut Octets) -> Result<(), NoMemory> {
    let request = Request::Add {
        group: args.u32(),
        offset: args.u32(),
        len: args.u32(),
        mode: args.u32(),
        delay: args.u32(),
        cycle: args.u32(),
    };
    put_request(alloc, &request, out)
}

fn put_delete(alloc: Global, args: &mut Args<'_>, out: &mut Octets) -> Result<(), NoMemory> {
    let handle = args.u32();
    put_request(alloc, &Request::Delete { handle }, out)
}

fn put_note(alloc: Global, args: &mut Args<'_>, out: &mut Octets) -> Result<(), NoMemory> {
    let data = data_of(alloc, args);
    put_request(alloc, &Request::Note(data.as_slice()), out)
}

fn put_read_write(alloc: Global, args: &mut Args<'_>, out: &mut Octets) -> Result<(), NoMemory> {
    let group = args.u32();
    let offset = args.u32();
    let read_len = args.u32();
    let data = data_of(alloc, args);
    let request = Request::ReadWrite {
        group,
        offset,
        read_len,
        bytes: data.as_slice(),
    };
    put_request(alloc, &request, out)
}

fn show(request: &Request<'_>, answer: &mut Answer) {
    match request {
        Request::DeviceInfo => answer.say("device_info"),
        Request::State => answer.say("state"),
        Request::Read { group, offset, len } => {
            show_access("read", *group, *offset, answer);
            answer.name("len", u64::from(*len));
        }
        Request::Write {
            group,
            offset,
            bytes,
        } => {
            show_access("write", *group, *offset, answer);
            answer.hex(bytes);
        }
        Request::Control { ads, device, bytes } => {
            answer.name("control ads", u64::from(*ads));
            answer.name("device", u64::from(*device));
            answer.hex(bytes);
        }
        Request::Add {
            group,
            offset,
            len,
            mode,
            delay,
            cycle,
        } => {
            show_access("add", *group, *offset, answer);
            answer.name("len", u64::from(*len));
            answer.name("mode", u64::from(*mode));
            answer.name("delay", u64::from(*delay));
            answer.name("cycle", u64::from(*cycle));
        }
        Request::Delete { handle } => answer.name("delete handle", u64::from(*handle)),
        Request::Note(bytes) => {
            answer.say("note");
            answer.hex(bytes);
        }
        Request::ReadWrite {
            group,
            offset,
            read_len,
            bytes,
        } => {
            show_access("read_write", *group, *offset, answer);
            answer.name("read_len", u64::from(*read_len));
            answer.hex(bytes);
        }
    }
}

fn show_access(name: &str, group: u32, offset: u32, answer: &mut Answer) {
    answer.say(name);
    answer.name("group", u64::from(group));
    answer.name("offset", u64::from(offset));
}

//! Calls of ads_commands: replies.

use super::payloads::data_of;
use ads_base::{NoMemory, Octets};
use ads_commands::{DeviceFacts, Reply, put_reply, read_reply};
use case_sheets::{Answer, Args};
use std::alloc::Global;

// The command, and the payload.
pub fn reply_read(args: &mut Args<'_>, answer: &mut Answer) {
    let command = args.u16();
    let payload = args.octets();
    match read_reply(command, payload.as_slice()) {
        Some(reply) => show(&reply, answer),
        None => answer.say("none"),
    }
}

// The reply's name, its result, its numbers and its data.
pub fn reply_put(alloc: Global, args: &mut Args<'_>, answer: &mut Answer) -> Result<(), NoMemory> {
    let name = args.name();
    let code = args.u32();
    let mut out = Octets::new(alloc);
    match name {
        "info" => put_info(alloc, code, args, &mut out)?,
        "read" => put_reply(
            alloc,
            &Reply::Read(code, data_of(alloc, args).as_slice()),
            &mut out,
        )?,
        "read_write" => put_reply(
            alloc,
            &Reply::ReadWrite(code, data_of(alloc, args).as_slice()),
            &mut out,
        )?,
        "write" => put_reply(alloc, &Reply::Write(code), &mut out)?,
        "control" => put_reply(alloc, &Reply::Control(code), &mut out)?,
        "delete" => put_reply(alloc, &Reply::Delete(code), &mut out)?,
        "state" => put_reply(alloc, &Reply::State(code, args.u16(), args.u16()), &mut out)?,
        "add" => put_reply(alloc, &Reply::Add(code, args.u32()), &mut out)?,
        _ => args.refuse(),
    }
    answer.hex(out.as_slice());
    Ok(())
}

// Major, minor, build, and the name's 16 bytes.
fn put_info(
    alloc: Global,
    code: u32,
    args: &mut Args<'_>,
    out: &mut Octets,
) -> Result<(), NoMemory> {
    let major = args.u8();
    let minor = args.u8();
    let build = args.u16();
    let given = args.octets();
    let mut name = [0u8; 16];
    if given.len() == name.len() {
        name.copy_from_slice(given.as_slice());
    } else {
        args.refuse();
    }
    let facts = DeviceFacts {
        major,
        minor,
        build,
        name,
    };
    put_reply(alloc, &Reply::Info(code, facts), out)
}

fn show(reply: &Reply<'_>, answer: &mut Answer) {
    match reply {
        Reply::Info(code, facts) => {
            answer.name("info", u64::from(*code));
            show_facts(facts, answer);
        }
        Reply::Read(code, bytes) => {
            answer.name("read", u64::from(*code));
            answer.hex(bytes);
        }
        Reply::Write(code) => answer.name("write", u64::from(*code)),
        Reply::State(code, ads, device) => {
            answer.name("state", u64::from(*code));
            answer.name("ads", u64::from(*ads));
            answer.name("device", u64::from(*device));
        }
        Reply::Control(code) => answer.name("control", u64::from(*code)),
        Reply::Add(code, handle) => {
            answer.name("add", u64::from(*code));
            answer.name("handle", u64::from(*handle));
        }
        Reply::Delete(code) => answer.name("delete", u64::from(*code)),
        Reply::ReadWrite(code, bytes) => {
            answer.name("read_write", u64::from(*code));
            answer.hex(bytes);
        }
    }
}

fn show_facts(facts: &DeviceFacts, answer: &mut Answer) {
    answer.name("major", u64::from(facts.major));
    answer.name("minor", u64::from(facts.minor));
    answer.name("build", u64::from(facts.build));
    answer.quote(&facts.name);
}

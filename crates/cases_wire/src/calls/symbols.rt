//! Calls of symbol_info.

use ads_base::{NoMemory, Octets};
use case_sheets::{Answer, Args, Fault};
use std::alloc::Global;
use symbol_info::{Entry, put_entry, read_entry};

pub fn make(
    alloc: Global,
    call: &str,
    args: &mut Args<'_>,
    answer: &mut Answer,
) -> Result<(), Fault> {
    match call {
        "read_entry" => entry_read(args, answer),
        "read_entries" => entries_read(args, answer),
        "put_entry" => entry_put(alloc, args, answer)?,
        _ => return Err(Fault::NoCall),
    }
    Ok(())
}

fn entry_read(args: &mut Args<'_>, answer: &mut Answer) {
    let bytes = args.octets();
    match read_entry(bytes.as_slice()) {
        Some((entry, rest)) => {
            show(&entry, answer);
            answer.say("rest");
            answer.hex(rest);
        }
        None => answer.say("none"),
    }
}

// How many entries stand one after another, and what stands behind them.
fn entries_read(args: &mut Args<'_>, answer: &mut Answer) {
    let bytes = args.octets();
    let mut rest = bytes.as_slice();
    let mut entries = 0u64;
    for _ in 0..bytes.len() {
        let Some((_, behind)) = read_entry(rest) else {
            break;
        };
        entries = entries.saturating_add(1);
        rest = behind;
    }
    answer.name("entries", entries);
    answer.say("rest");
    answer.hex(rest);
}

// Group, offset, size, type id, flags, name, type and comment.
fn entry_put(alloc: Global, args: &mut Args<'_>, answer: &mut Answer) -> Result<(), NoMemory> {
    let group = args.u32();
    let offset = args.u32();
    let size = args.u32();
    let type_id = args.u32();
    let flags = args.u32();
    let name = args.octets();
    let kind = args.octets();
    let comment = args.octets();
    if name.len() > 65535 || kind.len() > 65535 || comment.len() > 65535 {
        args.refuse();
        return Ok(());
    }
    let entry = Entry {
        group,
        offset,
        size,
        type_id,
        flags,
        name: name.as_slice(),
        kind: kind.as_slice(),
        comment: comment.as_slice(),
    };
    let mut out = Octets::new(alloc);
    put_entry(alloc, &entry, &mut out)?;
    answer.hex(out.as_slice());
    Ok(())
}

fn show(entry: &Entry<'_>, answer: &mut Answer) {
    answer.name("group", u64::from(entry.group));
    answer.name("offset", u64::from(entry.offset));
    answer.name("size", u64::from(entry.size));
    answer.name("type_id", u64::from(entry.type_id));
    answer.name("flags", u64::from(entry.flags));
    answer.quote(entry.name);
    answer.quote(entry.kind);
    answer.quote(entry.comment);
}

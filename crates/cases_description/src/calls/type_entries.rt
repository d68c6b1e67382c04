//! Calls of type_upload.

use ads_base::Octets;
use case_plants::description_of;
use case_sheets::{Answer, Args, Fault};
use std::alloc::Global;
use type_upload::{TypeEntry, put_types, read_type};

pub fn make(
    alloc: Global,
    call: &str,
    args: &mut Args<'_>,
    answer: &mut Answer,
) -> Result<(), Fault> {
    match call {
        "read_type" => type_read(args, answer),
        "read_types" => types_read(args, answer),
        "put_types" => types_put(alloc, args, answer)?,
        _ => return Err(Fault::NoCall),
    }
    Ok(())
}

fn type_read(args: &mut Args<'_>, answer: &mut Answer) {
    let bytes = args.octets();
    match read_type(bytes.as_slice()) {
        Some((entry, rest)) => {
            show(&entry, answer);
            answer.say("rest");
            answer.hex(rest);
        }
        None => answer.say("none"),
    }
}

// How many entries stand one after another, and what stands behind them.
fn types_read(args: &mut Args<'_>, answer: &mut Answer) {
    let bytes = args.octets();
    let mut rest = bytes.as_slice();
    let mut entries = 0u64;
    for _ in 0..bytes.len() {
        let Some((_, behind)) = read_type(rest) else {
            break;
        };
        entries = entries.saturating_add(1);
        rest = behind;
    }
    answer.name("entries", entries);
    answer.say("rest");
    answer.hex(rest);
}

// A description: the upload of its types.
fn types_put(alloc: Global, args: &mut Args<'_>, answer: &mut Answer) -> Result<(), Fault> {
    let description = description_of(alloc, args)?;
    let mut out = Octets::new(alloc);
    put_types(alloc, &description.types, &mut out)?;
    answer.hex(out.as_slice());
    Ok(())
}

fn show(entry: &TypeEntry<'_>, answer: &mut Answer) {
    answer.name("size", u64::from(entry.size));
    answer.name("offset", u64::from(entry.offset));
    answer.name("type_id", u64::from(entry.type_id));
    answer.name("flags", u64::from(entry.flags));
    answer.quote(entry.name);
    answer.quote(entry.kind);
    answer.quote(entry.comment);
    answer.say("dims");
    answer.hex(entry.dims);
    answer.name("subs", u64::from(entry.subs));
    answer.hex(entry.sub_bytes);
}

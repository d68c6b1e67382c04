//! Calls of name_index.

use ads_base::NoMemory;
use case_sheets::{Answer, Args, Fault};
use name_index::{NameIndex, lower_copy};
use std::alloc::Global;

pub fn make(
    alloc: Global,
    call: &str,
    args: &mut Args<'_>,
    answer: &mut Answer,
) -> Result<(), Fault> {
    match call {
        "lower_copy" => {
            let text = args.octets();
            let lower = lower_copy(alloc, text.as_slice())?;
            answer.quote(lower.as_slice());
        }
        "names" => names(alloc, args, answer)?,
        _ => return Err(Fault::NoCall),
    }
    Ok(())
}

// Names that are added, numbered from 0, and names that are looked for.
fn names(alloc: Global, args: &mut Args<'_>, answer: &mut Answer) -> Result<(), NoMemory> {
    let mut index = NameIndex::new(alloc);
    for _ in 0..usize::MAX {
        if !args.has_more() {
            break;
        }
        match args.name() {
            "add" => add(alloc, args, &mut index)?,
            "find" => find(&index, args, answer),
            _ => args.refuse(),
        }
    }
    Ok(())
}

fn add(alloc: Global, args: &mut Args<'_>, index: &mut NameIndex) -> Result<(), NoMemory> {
    let name = args.octets();
    if index.len() == u32::MAX {
        args.refuse();
        return Ok(());
    }
    index.add(alloc, name.as_slice())
}

fn find(index: &NameIndex, args: &mut Args<'_>, answer: &mut Answer) {
    let name = args.octets();
    match index.find(name.as_slice()) {
        Some(number) => answer.tell(u64::from(number)),
        None => answer.say("none"),
    }
}

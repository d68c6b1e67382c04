//! Calls of value_text.

ghost use Rattle.std.specs.Prelude.{◌≤◌, length};

use ads_base::{NoMemory, Octets};
use case_sheets::{Answer, Args, Fault, is_same};
use std::alloc::Global;
use value_text::{from_text, to_text};

// The greatest size of a value that is read from a text.
const GREATEST_VALUE: u32 = 1_048_576;

pub fn make(
    alloc: Global,
    call: &str,
    args: &mut Args<'_>,
    answer: &mut Answer,
) -> Result<(), Fault> {
    match call {
        "to_text" => value_written(alloc, args, answer)?,
        "from_text" => text_read(alloc, args, answer)?,
        "there_and_back" => back_again(alloc, args, answer)?,
        _ => return Err(Fault::NoCall),
    }
    Ok(())
}

// The type id, and the bytes of the value.
fn value_written(alloc: Global, args: &mut Args<'_>, answer: &mut Answer) -> Result<(), NoMemory> {
    let id = args.u32();
    let value = args.octets();
    let mut out = Octets::new(alloc);
    to_text(alloc, id, value.as_slice(), &mut out)?;
    answer.quote(out.as_slice());
    Ok(())
}

// The type id, the size, and the text.
fn text_read(alloc: Global, args: &mut Args<'_>, answer: &mut Answer) -> Result<(), NoMemory> {
    let id = args.u32();
    let size = args.u32();
    let text = args.octets();
    if size > GREATEST_VALUE {
        args.refuse();
        return Ok(());
    }
    match from_text(alloc, id, size, text.as_slice())? {
        Some(value) => answer.hex(value.as_slice()),
        None => answer.say("none"),
    }
    Ok(())
}

// The type id and the bytes of a value: the length of its text, and what that text is read as.
fn back_again(alloc: Global, args: &mut Args<'_>, answer: &mut Answer) -> Result<(), NoMemory> {
    let id = args.u32();
    let value = args.octets();
    if value.len() > GREATEST_VALUE as usize {
        args.refuse();
        return Ok(());
    }
    written_and_read(alloc, id, value.as_slice(), answer)
}

fn written_and_read(
    alloc: Global,
    id: u32,
    value: &[u8],
    answer: &mut Answer,
) -> Result<(), NoMemory>
    requires { length value.now ≤ 1048576 }
{
    let mut text = Octets::new(alloc);
    to_text(alloc, id, value, &mut text)?;
    answer.name("text", text.len() as u64);
    say_again(
        from_text(alloc, id, value.len() as u32, text.as_slice())?,
        value,
        answer,
    );
    Ok(())
}

fn say_again(again: Option<Octets>, value: &[u8], answer: &mut Answer) {
    match again {
        Some(again) if is_same(again.as_slice(), value) => answer.say("same"),
        Some(again) => answer.hex(again.as_slice()),
        None => answer.say("none"),
    }
}

//! The lines of a file that describes a run.

use crate::Fault;
use crate::draft::{Draft, Target};
use crate::folder::Folder;
use crate::link_case::take_link_line;
use crate::store_case::take_store_line;
use crate::wire_case::take_wire_line;
use ads_base::{Calls, NoMemory, Octets};
use std::alloc::Global;
use std::io::ErrorKind;
use std::str;

/// Reads one line into a draft. Lines `from` take the bytes of files of the folder.
pub fn take_line(
    alloc: Global,
    folder: &mut Folder,
    draft: &mut Draft,
    line: &str,
) -> Result<(), Fault> {
    if line.is_empty() {
        return Ok(());
    }
    let (key, rest) = line.split_once(' ').unwrap_or((line, ""));
    match key {
        "#" => {
            draft.has_comment = true;
            Ok(())
        }
        "|" | "+" | "bytes" | "repeat" | "change" => take_text(alloc, &mut draft.text, key, rest),
        "from" => {
            let bytes = folder.read(rest)?;
            draft.text.put(alloc, bytes.as_slice())?;
            Ok(())
        }
        "file" => {
            let name = Octets::copy_of(alloc, rest.as_bytes())?;
            draft.begin(alloc, Target::File(name))
        }
        "reload" => draft.begin(alloc, Target::Reload),
        "out" => draft.begin(alloc, Target::Output),
        "told" => draft.begin(alloc, Target::Told),
        "log" => draft.begin(alloc, Target::Log),
        "talk" => draft.begin(alloc, Target::Talk),
        "rows" => draft.begin(alloc, Target::Rows),
        "disk" | "left" | "stop" | "fail-disk" | "fail-keeper" => {
            draft.begin(alloc, Target::Nothing)?;
            take_store_line(alloc, &mut draft.given.stores, key, rest)
        }
        "comes" | "quiet" | "ends" | "fail-link" => {
            draft.begin(alloc, Target::Nothing)?;
            take_link_line(alloc, &mut draft.given.link, key, rest)
        }
        "opened" | "piece" | "closed" | "tick" | "writable" | "fail-wire" | "cut" => {
            draft.begin(alloc, Target::Nothing)?;
            take_wire_line(alloc, &mut draft.given.wire, key, rest)
        }
        _ => take_setting(alloc, draft, key, rest),
    }
}

// What the run is given beside its files, and the status that must come.
fn take_setting(alloc: Global, draft: &mut Draft, key: &str, rest: &str) -> Result<(), Fault> {
    match key {
        "words" => put_words(alloc, draft, rest),
        "word" => put_word(alloc, draft, rest),
        "fail-read" => put_number(alloc, &mut draft.given.failing_reads, rest),
        "fail-put" => put_number(alloc, &mut draft.given.failing_puts, rest),
        "leave" => put_number(alloc, &mut draft.given.parts, rest),
        "no-signals" => {
            draft.given.has_signals = false;
            Ok(())
        }
        "unreadable" => {
            draft.given.unreadable = Some(kind_of(rest));
            Ok(())
        }
        "status" => {
            let status = rest.parse::<u8>();
            draft.status = Some(status.map_err(|_| Fault::Off("no status"))?);
            Ok(())
        }
        _ => Err(Fault::Off("no such line")),
    }
}

// Text of a file or of the output: `|` a line, `+` without its end, `bytes` in hexadecimal, `repeat` so often, and
// `change` of the first place.
fn take_text(alloc: Global, text: &mut Octets, key: &str, rest: &str) -> Result<(), Fault> {
    match key {
        "|" => {
            text.put(alloc, rest.as_bytes())?;
            text.push(alloc, b'\n')?;
            Ok(())
        }
        "+" => Ok(text.put(alloc, rest.as_bytes())?),
        "bytes" => {
            let bytes = hex::decode(alloc, rest);
            let bytes = bytes.map_err(|_| Fault::Off("no bytes in hexadecimal"))?;
            Ok(text.put(alloc, bytes.as_slice())?)
        }
        "repeat" => put_repeated(alloc, text, rest),
        _ => change(alloc, text, rest),
    }
}

// `16 abc`: the text so many times.
fn put_repeated(alloc: Global, text: &mut Octets, rest: &str) -> Result<(), Fault> {
    let Some((count, piece)) = rest.split_once(' ') else {
        return Err(Fault::Off("no count and text"));
    };
    let count = count.parse::<u32>();
    let count = count.map_err(|_| Fault::Off("no count"))?;
    for _ in 0..count {
        text.put(alloc, piece.as_bytes())?;
    }
    Ok(())
}

// `a => b`: the first a becomes b.
fn change(alloc: Global, text: &mut Octets, rest: &str) -> Result<(), Fault> {
    let Some((old, new)) = rest.split_once(" => ") else {
        return Err(Fault::Off("no change"));
    };
    let changed = changed(alloc, text.as_slice(), old, new)?;
    *text = changed;
    Ok(())
}

fn changed(alloc: Global, text: &[u8], old: &str, new: &str) -> Result<Octets, Fault> {
    let Ok(text) = str::from_utf8(text) else {
        return Err(Fault::Off("a change of bytes that are no text"));
    };
    let Some((before, behind)) = text.split_once(old) else {
        return Err(Fault::Off("a change of what is not there"));
    };
    let mut changed = Octets::copy_of(alloc, before.as_bytes())?;
    changed.put(alloc, new.as_bytes())?;
    changed.put(alloc, behind.as_bytes())?;
    Ok(changed)
}

// Why the words of a process cannot be read: memory was wanting, or one is no text.
fn kind_of(why: &str) -> ErrorKind {
    if why == "memory" {
        ErrorKind::OutOfMemory
    } else {
        ErrorKind::InvalidData
    }
}

fn put_words(alloc: Global, draft: &mut Draft, rest: &str) -> Result<(), Fault> {
    for word in rest.split_ascii_whitespace() {
        put_word(alloc, draft, word)?;
    }
    Ok(())
}

fn put_word(alloc: Global, draft: &mut Draft, word: &str) -> Result<(), Fault> {
    push_word(alloc, &mut draft.given.words, word)?;
    Ok(())
}

fn push_word(alloc: Global, words: &mut Vec<String>, word: &str) -> Result<(), NoMemory> {
    words.push(String::from_str(alloc, word)?)?;
    Ok(())
}

fn put_number(alloc: Global, numbers: &mut Calls, rest: &str) -> Result<(), Fault> {
    let number = rest.parse::<u64>();
    let number = number.map_err(|_| Fault::Off("no number"))?;
    numbers.push(alloc, number)?;
    Ok(())
}

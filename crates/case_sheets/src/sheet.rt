//! A file of cases. A line that begins with a space goes on with the case above it, and with its last word where a `+`
//! follows. An empty line and one that begins with `#` say nothing to the program. Every other line begins a case.

use crate::args::next_word;
use crate::case::{Verdict, tried};
use crate::folder::Sheet;
use crate::libraries::Libraries;
use ads_base::{NoMemory, Octets};
use std::alloc::Global;

/// How many cases a file has, and how many of them are wrong.
#[derive(Clone, Copy)]
pub struct Count {
    pub cases: u64,
    pub wrong: u64,
}

// The case that is being read, and the number of its first line.
#[derive(Drop)]
struct Open {
    line: u64,
    text: Octets,
}

/// Tries the cases of a file, and appends a line or two for each that is wrong.
pub fn tried_all<L: Libraries>(
    alloc: Global,
    sheets: &[Sheet],
    sheet: &Sheet,
    out: &mut Octets,
) -> Result<Count, NoMemory> {
    let mut count = Count { cases: 0, wrong: 0 };
    let mut open = Open {
        line: 0,
        text: Octets::new(alloc),
    };
    let mut libraries = L::new(alloc)?;
    let mut number = 0u64;
    for line in sheet.bytes.as_slice().split(|b| *b == b'\n') {
        number = number.saturating_add(1);
        match line {
            [] | [b'#', ..] => {}
            [b' ', ..] => go_on(alloc, line, &mut open.text)?,
            _ => {
                close(alloc, sheets, sheet, &mut libraries, &open, &mut count, out)?;
                open.line = number;
                open.text = Octets::copy_of(alloc, line)?;
            }
        }
    }
    close(alloc, sheets, sheet, &mut libraries, &open, &mut count, out)?;
    Ok(count)
}

// Appends a line that begins with spaces.
fn go_on(alloc: Global, line: &[u8], text: &mut Octets) -> Result<(), NoMemory> {
    let (word, _) = next_word(line);
    if let [b'+', ..] = word {
        return text.put(alloc, without_indent(line));
    }
    text.put(alloc, line)
}

fn without_indent(line: &[u8]) -> &[u8] {
    for i in 0..line.len() {
        if line[i] != b' ' {
            return &line[i..];
        }
    }
    line
}

// Tries the case that was read, if there is one.
fn close<L: Libraries>(
    alloc: Global,
    sheets: &[Sheet],
    sheet: &Sheet,
    libraries: &mut L,
    open: &Open,
    count: &mut Count,
    out: &mut Octets,
) -> Result<(), NoMemory> {
    let case = open.text.as_slice();
    if case.is_empty() {
        return Ok(());
    }
    count.cases = count.cases.saturating_add(1);
    let verdict = tried(alloc, sheets, libraries, case)?;
    if matches!(verdict, Verdict::Right) {
        return Ok(());
    }
    count.wrong = count.wrong.saturating_add(1);
    let name = sheet.name.as_str();
    let line = open.line;
    let place = format!(in alloc; "{name} line {line}: ")?;
    out.put(alloc, place.as_bytes())?;
    out.put(alloc, case)?;
    put_verdict(alloc, &verdict, out)
}

fn put_verdict(alloc: Global, verdict: &Verdict, out: &mut Octets) -> Result<(), NoMemory> {
    match verdict {
        Verdict::Right => Ok(()),
        Verdict::Came(answer) => {
            out.put(alloc, b"\n  but this came: ")?;
            out.put(alloc, answer.as_slice())?;
            out.push(alloc, b'\n')
        }
        Verdict::Unreadable(why) => {
            out.put(alloc, b"\n  can't be read: ")?;
            out.put(alloc, why.as_bytes())?;
            out.push(alloc, b'\n')
        }
    }
}

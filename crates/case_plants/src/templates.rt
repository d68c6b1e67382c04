//! Texts that are written once for many cases: a line `# PART` stands for what the case adds, and a line
//! `#repeat A..B TEXT` for the text once for each number from A to B.

use ads_base::NoMemory;
use case_sheets::Args;
use std::alloc::Global;

/// The arguments up to `=>` as they stand.
pub fn raw<'a>(args: &mut Args<'a>) -> &'a str {
    let all = args.rest();
    for _ in 0..all.len() {
        if !args.has_more() {
            break;
        }
        let _ = args.word();
    }
    let len = all.len().saturating_sub(args.rest().len());
    match std::str::from_utf8(&all[..len]) {
        Ok(text) => text,
        Err(_) => "",
    }
}

/// The text of a frame, with the part in place of `# PART`; in the part `\n` stands for the end of a line.
pub fn filled(alloc: Global, frame: &[u8], part: &str) -> Result<String, NoMemory> {
    let mut text = String::new(alloc);
    let frame = std::str::from_utf8(frame).unwrap_or("");
    for line in frame.lines() {
        if line == "# PART" {
            put_part(alloc, part, &mut text)?;
        } else {
            put_line(alloc, line, &mut text)?;
        }
    }
    Ok(text)
}

fn put_part(alloc: Global, part: &str, out: &mut String) -> Result<(), NoMemory> {
    for line in part.split("\\n") {
        put_line(alloc, line.trim(), out)?;
    }
    Ok(())
}

fn put_line(alloc: Global, line: &str, out: &mut String) -> Result<(), NoMemory> {
    let (first, last, text) = repeated(line);
    for number in u64::from(first)..u64::from(last) + 1 {
        put_numbered(alloc, text, number, out)?;
        out.push_str("\n")?;
    }
    Ok(())
}

// The numbers and the text of a line `#repeat A..B TEXT`; each other line stands there once.
fn repeated(line: &str) -> (u32, u32, &str) {
    let Some(behind) = line.strip_prefix("#repeat ") else {
        return (0, 0, line);
    };
    let (range, text) = behind.split_once(' ').unwrap_or(("0..0", behind));
    let (first, last) = range.split_once("..").unwrap_or(("0", "0"));
    (
        first.parse::<u32>().unwrap_or(0),
        last.parse::<u32>().unwrap_or(0),
        text,
    )
}

// `<n>` is the number, `<n-1>` the one before it, and `<4n>` four times the number.
fn put_numbered(alloc: Global, text: &str, n: u64, out: &mut String) -> Result<(), NoMemory> {
    for (place, piece) in text.split('<').enumerate() {
        let (number, behind) = number_in(piece, n);
        if let Some(number) = number {
            out.push_str(format!(in alloc; "{number}")?.as_str())?;
        } else if place > 0 {
            out.push_str("<")?;
        }
        out.push_str(behind)?;
    }
    Ok(())
}

fn number_in(piece: &str, n: u64) -> (Option<u64>, &str) {
    if let Some(behind) = piece.strip_prefix("n>") {
        (Some(n), behind)
    } else if let Some(behind) = piece.strip_prefix("n-1>") {
        (Some(n.saturating_sub(1)), behind)
    } else if let Some(behind) = piece.strip_prefix("4n>") {
        (Some(n.saturating_mul(4)), behind)
    } else {
        (None, piece)
    }
}

//! The log of a wire by the bytes that were taken, whatever pieces they were offered in.

use crate::Fault;
use ads_base::Octets;
use std::alloc::Global;
use std::str;

/// The same log, in which offers to one connection behind each other are one line of the bytes that were taken of them.
pub(crate) fn joined(alloc: Global, log: &[u8]) -> Result<Octets, Fault> {
    let Ok(text) = str::from_utf8(log) else {
        return Err(Fault::Off("the log is no text"));
    };
    let mut lines = Octets::new(alloc);
    // The connection of the line that is not ended, as it is written.
    let mut open: &[u8] = b"";
    for line in text.lines() {
        open = put_line(alloc, &mut lines, open, line)?;
    }
    end_line(alloc, &mut lines, open)?;
    Ok(lines)
}

// One more line of the log; the connection of the line that is not ended then.
fn put_line<'a>(
    alloc: Global,
    lines: &mut Octets,
    open: &'a [u8],
    line: &'a str,
) -> Result<&'a [u8], Fault> {
    let Some((conn, digits)) = taken_in(line) else {
        end_line(alloc, lines, open)?;
        lines.put(alloc, line.as_bytes())?;
        lines.put(alloc, b"\n")?;
        return Ok(b"");
    };
    if digits.is_empty() {
        return Ok(open);
    }
    if conn.as_bytes() != open {
        end_line(alloc, lines, open)?;
        lines.put(alloc, b"took ")?;
        lines.put(alloc, conn.as_bytes())?;
        lines.put(alloc, b" x")?;
    }
    lines.put(alloc, digits.as_bytes())?;
    Ok(conn.as_bytes())
}

fn end_line(alloc: Global, lines: &mut Octets, open: &[u8]) -> Result<(), Fault> {
    if !open.is_empty() {
        lines.put(alloc, b"\n")?;
    }
    Ok(())
}

// Of `took 1 of 46 x0000` the connection and the bytes that were taken.
fn taken_in(line: &str) -> Option<(&str, &str)> {
    let (word, rest) = line.split_once(' ')?;
    if word != "took" {
        return None;
    }
    let (conn, rest) = rest.split_once(' ')?;
    let (_, digits) = rest.split_once('x')?;
    Some((conn, digits))
}

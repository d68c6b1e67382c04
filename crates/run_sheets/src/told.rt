//! What is printed of runs that did not go as wanted.

use crate::{Came, Fault};
use std::str;

/// A file that describes no run: its name, the line, and what is wrong.
pub fn tell_fault(rt: &HostRuntime, name: &str, line: u32, what: &str) -> Result<(), Fault> {
    println!(rt; "{name}, line {line}: {what}")?;
    Ok(())
}

/// The run of this file that ends at this line ended in another way than is wanted there.
pub fn tell_difference(rt: &HostRuntime, name: &str, line: u32) -> Result<(), Fault> {
    println!(rt; "{name}, the run up to line {line}, differs")?;
    Ok(())
}

/// How a run ended, or was to end: its status, what it printed and told, the wire's log, what was sent over the link, and what
/// is left of the stores.
pub fn tell_end(rt: &HostRuntime, word: &str, came: &Came) -> Result<(), Fault> {
    let status = came.status;
    println!(rt; "  {word}: status {status}")?;
    tell_text(rt, came.out.as_slice())?;
    if came.told.len() > 0 {
        println!(rt; "  {word}: on standard error")?;
        tell_text(rt, came.told.as_slice())?;
    }
    if came.log.len() > 0 {
        println!(rt; "  {word}: log of the wire")?;
        tell_text(rt, came.log.as_slice())?;
    }
    if came.talk.len() > 0 {
        println!(rt; "  {word}: sent over the link")?;
        tell_text(rt, came.talk.as_slice())?;
    }
    tell_stores(rt, word, came)
}

fn tell_stores(rt: &HostRuntime, word: &str, came: &Came) -> Result<(), Fault> {
    if came.left.len() > 0 {
        let digits = hex::encode(rt.alloc(), came.left.as_slice())?;
        println!(rt; "  {word}: the disk's file x{digits}")?;
    }
    if came.rows.len() > 0 {
        println!(rt; "  {word}: the keeper's rows")?;
        tell_text(rt, came.rows.as_slice())?;
    }
    Ok(())
}

fn tell_text(rt: &HostRuntime, text: &[u8]) -> Result<(), Fault> {
    match str::from_utf8(text) {
        Ok(text) => tell_lines(rt, text),
        Err(_) => {
            println!(rt; "    bytes that are no text")?;
            Ok(())
        }
    }
}

fn tell_lines(rt: &HostRuntime, text: &str) -> Result<(), Fault> {
    if text.is_empty() {
        println!(rt; "    (nothing is printed)")?;
    }
    for line in text.lines() {
        println!(rt; "    | {line}")?;
    }
    if !text.is_empty() && !text.ends_with('\n') {
        println!(rt; "    (without an end of line)")?;
    }
    Ok(())
}

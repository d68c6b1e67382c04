//! What is printed of runs that did not go as wanted.

use crate::fault::Fault;
use std::str;

/// The run of this file that ends at this line printed something else than is wanted there.
pub fn tell_difference(
    rt: &HostRuntime,
    name: &str,
    line: u32,
    came: &[u8],
    wanted: &[u8],
) -> Result<(), Fault> {
    println!(rt; "{name}, the run up to line {line}, differs")?;
    println!(rt; "  came:")?;
    tell_lines(rt, came)?;
    println!(rt; "  wanted:")?;
    tell_lines(rt, wanted)
}

fn tell_lines(rt: &HostRuntime, text: &[u8]) -> Result<(), Fault> {
    let Ok(text) = str::from_utf8(text) else {
        println!(rt; "    bytes that are no text")?;
        return Ok(());
    };
    for line in text.lines() {
        println!(rt; "    | {line}")?;
    }
    Ok(())
}

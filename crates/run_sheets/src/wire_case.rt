//! What the wire of a run gives and takes.

use crate::Fault;
use ads_base::{Calls, Octets};
use ads_outside::{Cuts, Event, Events};
use std::alloc::Global;

/// The events of a wire in memory, which of its calls fail, how many bytes its offers take, and the log that must come.
#[derive(Drop)]
pub struct WireCase {
    pub events: Events,
    pub failing_calls: Calls,
    pub cuts: Cuts,
    pub log: Octets,
}

impl WireCase {
    /// A wire that gives nothing.
    pub fn new(alloc: Global) -> WireCase {
        WireCase {
            events: Events::new(alloc),
            failing_calls: Calls::new(alloc),
            cuts: Cuts::new(alloc),
            log: Octets::new(alloc),
        }
    }
}

/// Reads a line on the wire: an event, a call that fails, or how many bytes an offer takes.
pub fn take_wire_line(
    alloc: Global,
    wire: &mut WireCase,
    key: &str,
    rest: &str,
) -> Result<(), Fault> {
    match key {
        "cut" => Ok(wire.cuts.push(alloc, conn_of(rest)?)?),
        "fail-wire" => Ok(wire.failing_calls.push(alloc, number_of(rest)?)?),
        "piece" => {
            let event = piece_of(alloc, rest)?;
            Ok(wire.events.push(alloc, event)?)
        }
        _ => {
            let event = event_of(key, rest)?;
            Ok(wire.events.push(alloc, event)?)
        }
    }
}

// An event without bytes.
fn event_of(key: &str, rest: &str) -> Result<Event, Fault> {
    match key {
        "opened" => Ok(Event::Opened(conn_of(rest)?)),
        "closed" => Ok(Event::Closed(conn_of(rest)?)),
        "writable" => Ok(Event::Writable(conn_of(rest)?)),
        _ => Ok(Event::Tick(number_of(rest)?)),
    }
}

// `1 00002c000000 0501`: a connection, and bytes in hexadecimal, which blanks may part.
fn piece_of(alloc: Global, rest: &str) -> Result<Event, Fault> {
    let (conn, digits) = rest.split_once(' ').unwrap_or((rest, ""));
    let conn = conn_of(conn)?;
    let bytes = bytes_of(alloc, digits)?;
    Ok(Event::Piece(conn, bytes))
}

/// Bytes in hexadecimal, which blanks may part.
pub fn bytes_of(alloc: Global, digits: &str) -> Result<Octets, Fault> {
    let mut bytes = Octets::new(alloc);
    for part in digits.split_ascii_whitespace() {
        put_digits(alloc, &mut bytes, part)?;
    }
    Ok(bytes)
}

/// Appends bytes in hexadecimal.
pub fn put_digits(alloc: Global, bytes: &mut Octets, digits: &str) -> Result<(), Fault> {
    let decoded = hex::decode(alloc, digits);
    let decoded = decoded.map_err(|_| Fault::Off("no bytes in hexadecimal"))?;
    bytes.put(alloc, decoded.as_slice())?;
    Ok(())
}

fn conn_of(text: &str) -> Result<u32, Fault> {
    text.parse::<u32>().map_err(|_| Fault::Off("no number"))
}

/// A decimal number of 64 bits.
pub fn number_of(text: &str) -> Result<u64, Fault> {
    text.parse::<u64>().map_err(|_| Fault::Off("no number"))
}

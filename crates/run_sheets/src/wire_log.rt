//! The log of a wire as text.

use crate::Fault;
use ads_base::Octets;
use ads_outside::{Event, Move};
use std::alloc::Global;

/// A line a move: an event by its kind, without its bytes; an offer with its length and what was taken of it.
pub fn log_text(alloc: Global, log: &[Move]) -> Result<Octets, Fault> {
    let mut text = Octets::new(alloc);
    for entry in log {
        let line = line_of(alloc, entry)?;
        text.put(alloc, line.as_bytes())?;
    }
    Ok(text)
}

fn line_of(alloc: Global, entry: &Move) -> Result<String, Fault> {
    match entry {
        Move::Event(event) => line_of_event(alloc, event),
        Move::Took(conn, offered, bytes) => {
            let digits = hex::encode(alloc, bytes.as_slice())?;
            Ok(format!(in alloc; "took {conn} of {offered} x{digits}\n")?)
        }
        Move::Lost(conn) => Ok(format!(in alloc; "lost {conn}\n")?),
        Move::Shut(conn) => Ok(format!(in alloc; "shut {conn}\n")?),
    }
}

fn line_of_event(alloc: Global, event: &Event) -> Result<String, Fault> {
    match event {
        Event::Opened(conn) => Ok(format!(in alloc; "opened {conn}\n")?),
        Event::Piece(conn, _) => Ok(format!(in alloc; "piece {conn}\n")?),
        Event::Closed(conn) => Ok(format!(in alloc; "closed {conn}\n")?),
        Event::Tick(moment) => Ok(format!(in alloc; "tick {moment}\n")?),
        Event::Reload(_) => Ok(String::from_str(alloc, "reload\n")?),
        Event::Writable(conn) => Ok(format!(in alloc; "writable {conn}\n")?),
    }
}

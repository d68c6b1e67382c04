//! What comes over the link of a run, and what must have been sent.

use crate::Fault;
use crate::wire_case::{bytes_of, number_of};
use ads_base::{Calls, Octets};
use ads_outside::{LinkEvent, LinkEvents, LinkMove};
use std::alloc::Global;

/// What comes over a link in memory, which of its calls fail, and the talk that must come: what it was connected to
/// and what was sent.
#[derive(Drop)]
pub struct LinkCase {
    pub events: LinkEvents,
    pub failing_calls: Calls,
    pub talk: Octets,
}

impl LinkCase {
    /// A link over which nothing comes.
    pub fn new(alloc: Global) -> LinkCase {
        LinkCase {
            events: LinkEvents::new(alloc),
            failing_calls: Calls::new(alloc),
            talk: Octets::new(alloc),
        }
    }
}

/// Reads a line on the link: bytes that come, nothing that comes, once or so often, its end, or a call that fails.
pub fn take_link_line(
    alloc: Global,
    link: &mut LinkCase,
    key: &str,
    rest: &str,
) -> Result<(), Fault> {
    match key {
        "fail-link" => Ok(link.failing_calls.push(alloc, number_of(rest)?)?),
        "comes" => {
            let event = coming_of(alloc, rest)?;
            Ok(link.events.push(alloc, event)?)
        }
        "quiet" => put_quiet(alloc, &mut link.events, rest),
        _ => {
            let moment = number_of(rest)?;
            Ok(link.events.push(alloc, LinkEvent::Closed(moment))?)
        }
    }
}

// `5 00002c000000 0501`: a moment, and bytes in hexadecimal, which blanks may part.
fn coming_of(alloc: Global, rest: &str) -> Result<LinkEvent, Fault> {
    let (moment, digits) = rest.split_once(' ').unwrap_or((rest, ""));
    let moment = number_of(moment)?;
    let bytes = bytes_of(alloc, digits)?;
    Ok(LinkEvent::Bytes(bytes, moment))
}

// `5 3`: a moment, and how often nothing comes.
fn put_quiet(alloc: Global, events: &mut LinkEvents, rest: &str) -> Result<(), Fault> {
    let (moment, times) = rest.split_once(' ').unwrap_or((rest, "1"));
    let moment = number_of(moment)?;
    let times = number_of(times)?;
    for _ in 0..times {
        events.push(alloc, LinkEvent::Quiet(moment))?;
    }
    Ok(())
}

/// A line each connection, refusal and sending of a link's log.
pub fn talk_of(alloc: Global, log: &[LinkMove]) -> Result<Octets, Fault> {
    let mut text = Octets::new(alloc);
    for entry in log {
        put_move(alloc, &mut text, entry)?;
    }
    Ok(text)
}

fn put_move(alloc: Global, text: &mut Octets, entry: &LinkMove) -> Result<(), Fault> {
    match entry {
        LinkMove::Connected(to, _) => put_line(alloc, text, b"to ", to.as_slice()),
        LinkMove::Refused(to) => put_line(alloc, text, b"refused ", to.as_slice()),
        LinkMove::Sent(bytes) => {
            let digits = hex::encode(alloc, bytes.as_slice())?;
            put_line(alloc, text, b"sent ", digits.as_bytes())
        }
        LinkMove::Came(_) => Ok(()),
    }
}

fn put_line(alloc: Global, text: &mut Octets, word: &[u8], rest: &[u8]) -> Result<(), Fault> {
    text.put(alloc, word)?;
    text.put(alloc, rest)?;
    text.push(alloc, b'\n')?;
    Ok(())
}

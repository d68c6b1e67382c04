//! Calls of ads_outside.

use ads_base::{Calls, NoMemory};
use ads_outside::{Connected, Link, LinkEvent, LinkEvents, MemLink, Received, Sent};
use case_sheets::{Answer, Args, Fault};
use std::alloc::Global;

pub fn make(
    alloc: Global,
    call: &str,
    args: &mut Args<'_>,
    answer: &mut Answer,
) -> Result<(), Fault> {
    match call {
        "link" => link(alloc, args, answer)?,
        _ => return Err(Fault::NoCall),
    }
    Ok(())
}

// The numbers of the calls that fail, what comes, `then`, and the calls: their answers, behind them all bytes that were
// sent, the length of the log, and the faults.
fn link(alloc: Global, args: &mut Args<'_>, answer: &mut Answer) -> Result<(), NoMemory> {
    let mut fails = Calls::new(alloc);
    let mut events = LinkEvents::new(alloc);
    for _ in 0..u64::MAX {
        match args.name() {
            "fails" => fails.push(alloc, args.u64())?,
            "bytes" => events.push(alloc, LinkEvent::Bytes(args.octets(), args.u64()))?,
            "quiet" => events.push(alloc, LinkEvent::Quiet(args.u64()))?,
            "closed" => events.push(alloc, LinkEvent::Closed(args.u64()))?,
            _ => break,
        }
    }
    let mut link = MemLink::new(alloc, events, fails);
    for _ in 0..u64::MAX {
        if !args.has_more() {
            break;
        }
        ask(&mut link, args, answer);
    }
    answer.hex(link.sent());
    answer.tell(link.log().len() as u64);
    answer.tell(link.faults());
    Ok(())
}

fn ask(link: &mut MemLink, args: &mut Args<'_>, answer: &mut Answer) {
    match args.name() {
        "connect" => match link.connect(args.name()) {
            Connected::Ready(now) => answer.name("ready", now),
            Connected::Failed => answer.say("failed"),
            Connected::Memory => answer.say("memory"),
        },
        "send" => answer.say(match link.send(args.octets().as_slice()) {
            Sent::All => "all",
            Sent::Failed => "failed",
            Sent::Memory => "memory",
        }),
        "recv" => receive(link, args.u8(), answer),
        _ => args.refuse(),
    }
}

// What comes into a buffer of so many bytes.
fn receive(link: &mut MemLink, size: u8, answer: &mut Answer) {
    let mut room = [0u8; 256];
    let (buf, _) = room.split_at_mut(usize::from(size).max(1));
    match link.recv(buf) {
        Received::Bytes(n, now) => {
            answer.name("bytes", now);
            answer.hex(&buf[..n as usize]);
        }
        Received::Quiet(now) => answer.name("quiet", now),
        Received::Closed(now) => answer.name("closed", now),
        Received::Failed => answer.say("failed"),
        Received::Memory => answer.say("memory"),
    }
}

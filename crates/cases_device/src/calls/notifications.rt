//! Calls of notify_table.

ghost use Rattle.std.specs.Prelude.{◌≡◌, ◌<◌, ◌==◌, false, length, IfOk};
ghost use Rattle.std.specs.List.{list_any};
ghost use Rattle.std.specs.Option.{option_map_or};
ghost use Rattle.notify_table.specs.Specs.{watched_meant};
ghost use Rattle.notify_table.specs.Table.{watched_len, IsTable, due_handles};

use ads_base::{AmsAddr, NetId, NoMemory, Steps};
use case_plants::{area, moves, say_area};
use case_sheets::{Answer, Args, Fault};
use index_groups::Reach;
use notify_table::{Ended, Handles32, Mode, Spec, WatchFull, Watched, Watches};
use std::alloc::Global;
use std::marker::Brand;
use std::sync::ledger::{Blank, Ledger};
use type_layout::Area;

// The client that adds all notifications: 10.1.2.9.1.1, port 32905.
const CLIENT: AmsAddr = AmsAddr {
    net: NetId {
        bytes: [10, 1, 2, 9, 1, 1],
    },
    port: 32905,
};

// The ports that are there after a reload.
const PORTS: [u16; 1] = [851];

// The most bytes that a notification watches.
const MOST_BYTES: u32 = 2048;

pub fn make(
    alloc: Global,
    watches: &mut Watches,
    call: &str,
    args: &mut Args<'_>,
    answer: &mut Answer,
) -> Result<(), Fault> {
    match call {
        "new" => {
            *watches = Watches::new(alloc)?;
            answer.say("ok");
        }
        "add" => add_one(alloc, watches, args, answer)?,
        "spec" => match watches.spec(args.u32()) {
            Some(spec) => say_spec(&spec, answer),
            None => answer.say("none"),
        },
        "delete" => match watches.delete(args.u32(), args.u16()) {
            Ok(()) => answer.say("ok"),
            Err(code) => answer.tell_code(code.number()),
        },
        "due" => say_handles(&due(alloc, watches, args.u64())?, answer),
        "check" => check_one(alloc, watches, args, answer)?,
        "tick" => tick(alloc, watches, args.u64(), args.u64(), answer)?,
        "fill" => fill(alloc, watches, args, answer)?,
        "moved" => {
            let moves = moves(alloc)?;
            say_ended(watches.moved(alloc, &moves, &PORTS)?.as_slice(), answer);
        }
        _ => return Err(Fault::NoCall),
    }
    Ok(())
}

// PORT MODE CYCLE, and `bytes AREA AT LEN`, `bit AREA AT BIT`, `size AREA` or `own FIRST LEN`.
fn spec(args: &mut Args<'_>) -> Spec {
    let port = args.u16();
    let mode = if args.name() == "cycle" {
        Mode::Cycle
    } else {
        Mode::Change
    };
    let cycle = args.u32();
    let watched = watched(args);
    Spec {
        port,
        to: CLIENT,
        watched,
        mode,
        cycle,
    }
}

fn watched(args: &mut Args<'_>) -> Watched {
    let kind = args.name();
    if kind == "own" {
        return Watched::Own {
            first: args.u8(),
            len: args.u8(),
        };
    }
    Watched::InArea(reach(kind, args))
}

fn reach(kind: &str, args: &mut Args<'_>) -> Reach {
    let area = area(args);
    match kind {
        "bytes" => Reach::Bytes {
            area,
            at: args.u32(),
            len: args.u32(),
        },
        "bit" => Reach::Bit {
            area,
            at: args.u32(),
            bit: args.u8(),
        },
        _ => Reach::Size { area },
    }
}

fn say_spec(spec: &Spec, answer: &mut Answer) {
    answer.tell(u64::from(spec.port));
    answer.say(match spec.mode {
        Mode::Cycle => "cycle",
        Mode::Change => "change",
    });
    answer.tell(u64::from(spec.cycle));
    match spec.watched {
        Watched::InArea(reach) => say_in_area(reach, answer),
        Watched::Own { first, len } => {
            answer.name("own", u64::from(first));
            answer.tell(u64::from(len));
        }
    }
}

fn say_in_area(reach: Reach, answer: &mut Answer) {
    match reach {
        Reach::Bytes { area, at, len } => say_reach("bytes", area, at, len, answer),
        Reach::Bit { area, at, bit } => say_reach("bit", area, at, u32::from(bit), answer),
        Reach::Size { area } => say_reach("size", area, 0, 0, answer),
    }
}

fn say_reach(word: &str, area: Area, at: u32, last: u32, answer: &mut Answer) {
    answer.say(word);
    say_area(area, answer);
    answer.tell(u64::from(at));
    answer.tell(u64::from(last));
}

fn add_one(
    alloc: Global,
    watches: &mut Watches,
    args: &mut Args<'_>,
    answer: &mut Answer,
) -> Result<(), NoMemory> {
    match add(alloc, watches, spec(args))? {
        Some(Ok(handle)) => answer.tell(u64::from(handle)),
        Some(Err(WatchFull)) => answer.say("full"),
        None => args.refuse(),
    }
    Ok(())
}

// Adds a notification, where it may be watched.
fn add(
    alloc: Global,
    watches: &mut Watches,
    spec: Spec,
) -> Result<Option<Result<u32, WatchFull>>, NoMemory> {
    let len = len_of(spec.watched);
    if len == 0 || len > MOST_BYTES {
        return Ok(None);
    }
    Ok(Some(watches.add(alloc, spec)?))
}

// HANDLE MOMENT BYTES
fn check_one(
    alloc: Global,
    watches: &mut Watches,
    args: &mut Args<'_>,
    answer: &mut Answer,
) -> Result<(), NoMemory> {
    let handle = args.u32();
    let now = args.u64();
    let bytes = args.octets();
    answer.say(word_of(check(alloc, watches, handle, now, bytes.as_slice())?));
    Ok(())
}

fn word_of(sent: Option<bool>) -> &'static str {
    match sent {
        Some(true) => "sent",
        Some(false) => "kept",
        None => "none",
    }
}

// All that is due at a moment is checked: the byte of handle h is bit h % 64 of a number. Which handles send, and which
// don't.
fn tick(
    alloc: Global,
    watches: &mut Watches,
    now: u64,
    bits: u64,
    answer: &mut Answer,
) -> Result<(), NoMemory> {
    for handle in due(alloc, watches, now)?.as_slice() {
        let byte = ((bits >> (*handle % 64)) % 2) as u8;
        let sent = check(alloc, watches, *handle, now, &[byte])?;
        answer.name(word_of(sent), u64::from(*handle));
    }
    answer.say("end");
    Ok(())
}

// COUNT, and what is to be added so often. Each is checked once, at moment 0, with the byte 1. How many sent it.
fn fill(
    alloc: Global,
    watches: &mut Watches,
    args: &mut Args<'_>,
    answer: &mut Answer,
) -> Result<(), NoMemory> {
    let count = args.u32();
    let spec = spec(args);
    for _ in 0..count {
        let _ = add(alloc, watches, spec)?;
    }
    let mut sent = 0u64;
    for handle in due(alloc, watches, 0)?.as_slice() {
        if check(alloc, watches, *handle, 0, &[1])? == Some(true) {
            sent = sent.saturating_add(1);
        }
    }
    answer.name("sent", sent);
    Ok(())
}

fn say_handles(handles: &Handles32, answer: &mut Answer) {
    if handles.len() == 0 {
        answer.say("none");
    }
    for handle in handles.as_slice() {
        answer.tell(u64::from(*handle));
    }
}

fn say_ended(ended: &[Ended], answer: &mut Answer) {
    for one in ended {
        answer.name("handle", u64::from(one.handle));
        answer.name("port", u64::from(one.port));
        if one.to != CLIENT {
            answer.say("to another client");
        }
    }
    answer.say("end");
}

// Checks a notification, if it is due and watches as many bytes: whether a sample is to be sent.
fn check(
    alloc: Global,
    watches: &mut Watches,
    handle: u32,
    now: u64,
    bytes: &[u8],
) -> Result<Option<bool>, NoMemory> {
    let handles = due(alloc, watches, now)?;
    if !is_among(handles.as_slice(), handle) {
        return Ok(None);
    }
    let spec = watches.spec(handle);
    if !has_bytes(&spec, bytes) {
        return Ok(None);
    }
    Ok(Some(watches.checked(handle, now, bytes)))
}

fn is_among(handles: &[u32], handle: u32) -> bool
    ensures { result ≡ list_any (λ h. h == handle) handles.now }
{
    handles.iter().any(|h| *h == handle)
}

fn has_bytes(spec: &Option<Spec>, bytes: &[u8]) -> bool
    ensures { result ≡ option_map_or (λ s. watched_len (watched_meant s.watched) == length bytes.now) spec.now false }
{
    match spec {
        Some(spec) => len_of(spec.watched) as usize == bytes.len(),
        None => false,
    }
}

// How many bytes a check takes.
fn len_of(watched: Watched) -> u32
    ensures { result ≡ watched_len (watched_meant watched) }
{
    match watched {
        Watched::InArea(Reach::Bytes { len, .. }) => len,
        Watched::InArea(Reach::Bit { .. }) => 1,
        Watched::InArea(Reach::Size { .. }) => 0,
        Watched::Own { len, .. } => u32::from(len),
    }
}

fn due(alloc: Global, watches: &Watches, now: u64) -> Result<Handles32, NoMemory>
    ensures due { IfOk result (λ handles. handles ≡ due_handles now watches.now) }
    ensures table { IsTable watches.now }
{
    due_counted::<Brand>(alloc, watches, now, Blank::new(1))
}

fn due_counted<L: Ledger>(
    alloc: Global,
    watches: &Watches,
    now: u64,
    blank: Blank,
) -> Result<Handles32, NoMemory>
    requires name { blank.name ≡ L.name }
    requires parts { blank.parts ≡ L.parts }
    requires some { 0 < blank.parts }
    ensures due { IfOk result (λ handles. handles ≡ due_handles now watches.now) }
    ensures table { IsTable watches.now }
{
    let mut steps = Steps::<L>::open(blank);
    watches.due(alloc, now, &mut steps)
}

//! Calls of replay_script.

use ads_base::{NoMemory, Octets};
use ads_outside::{Event, Log, Move, ReloadNote, ReloadNotes};
use case_sheets::{Answer, Args, Fault};
use replay_script::{Counts, Script, ScriptLine, log_text, put_counted, read_script, summary_text};
use std::alloc::Global;

// The most bytes of a script.
const LIMIT: usize = 16_777_216;

pub fn make(
    alloc: Global,
    call: &str,
    args: &mut Args<'_>,
    answer: &mut Answer,
) -> Result<(), Fault> {
    match call {
        "read_script" => read(alloc, args, answer)?,
        "log_text" => log(alloc, args, answer)?,
        "summary_text" => summary(alloc, args, answer)?,
        "put_counted" => counted(alloc, args, answer)?,
        _ => return Err(Fault::NoCall),
    }
    Ok(())
}

fn read(alloc: Global, args: &mut Args<'_>, answer: &mut Answer) -> Result<(), NoMemory> {
    let text = args.octets();
    if text.len() > LIMIT {
        args.refuse();
        return Ok(());
    }
    match read_script(alloc, text.as_slice())? {
        Ok(script) => say_script(&script, answer),
        Err(line) => answer.name("line", u64::from(line)),
    }
    Ok(())
}

fn say_script(script: &Script, answer: &mut Answer) {
    answer.name("events", script.events());
    for line in script.as_slice() {
        say_line(line, answer);
    }
}

fn say_line(line: &ScriptLine, answer: &mut Answer) {
    match line {
        ScriptLine::Happens(event) => say_event(event, answer),
        ScriptLine::TakesAtMost(conn, room) => {
            answer.name("room", u64::from(*conn));
            answer.tell(*room);
        }
        ScriptLine::FailsNext(conn) => answer.name("fail", u64::from(*conn)),
    }
}

fn say_event(event: &Event, answer: &mut Answer) {
    match event {
        Event::Opened(conn) => answer.name("opened", u64::from(*conn)),
        Event::Piece(conn, bytes) => {
            answer.name("piece", u64::from(*conn));
            answer.hex(bytes.as_slice());
        }
        Event::Closed(conn) => answer.name("closed", u64::from(*conn)),
        Event::Tick(moment) => answer.name("tick", *moment),
        Event::Reload(text) => {
            answer.say("reload");
            answer.quote(text.as_slice());
        }
        Event::Writable(conn) => answer.name("writable", u64::from(*conn)),
    }
}

// An event: its word, and what belongs to it.
fn event_of(word: &str, args: &mut Args<'_>) -> Event {
    match word {
        "opened" => Event::Opened(args.u32()),
        "piece" => Event::Piece(args.u32(), args.octets()),
        "closed" => Event::Closed(args.u32()),
        "tick" => Event::Tick(args.u64()),
        "reload" => Event::Reload(args.octets()),
        "writable" => Event::Writable(args.u32()),
        _ => {
            args.refuse();
            Event::Tick(0)
        }
    }
}

// Notes and moves, in their order: `ok VERSION`, `refused RULE`, an event, `took CONN OF BYTES`, `lost CONN`, `shut CONN`.
// The text is appended to `# `.
fn log(alloc: Global, args: &mut Args<'_>, answer: &mut Answer) -> Result<(), NoMemory> {
    let mut log = Log::new(alloc);
    let mut notes = ReloadNotes::new(alloc);
    for _ in 0..args.rest().len() {
        if !args.has_more() {
            break;
        }
        match args.name() {
            "ok" => notes.push(alloc, ReloadNote::Ok(args.u8()))?,
            "refused" => notes.push(alloc, ReloadNote::Refused(args.u8()))?,
            word => log.push(alloc, move_of(word, args))?,
        }
    }
    let mut out = Octets::copy_of(alloc, b"# ")?;
    log_text(alloc, &log, &notes, &mut out)?;
    answer.quote(out.as_slice());
    Ok(())
}

fn move_of(word: &str, args: &mut Args<'_>) -> Move {
    match word {
        "took" => Move::Took(args.u32(), args.u32(), args.octets()),
        "lost" => Move::Lost(args.u32()),
        "shut" => Move::Shut(args.u32()),
        _ => Move::Event(event_of(word, args)),
    }
}

fn summary(alloc: Global, args: &mut Args<'_>, answer: &mut Answer) -> Result<(), NoMemory> {
    let counts = Counts {
        connections: args.u64(),
        requests: args.u64(),
        replies: args.u64(),
        samples: args.u64(),
        accepted: args.u64(),
        refused: args.u64(),
    };
    let mut out = Octets::new(alloc);
    summary_text(alloc, &counts, &mut out)?;
    answer.quote(out.as_slice());
    Ok(())
}

fn counted(alloc: Global, args: &mut Args<'_>, answer: &mut Answer) -> Result<(), NoMemory> {
    let word = args.octets();
    let mut out = Octets::new(alloc);
    put_counted(alloc, &mut out, word.as_slice(), args.u64())?;
    answer.quote(out.as_slice());
    Ok(())
}

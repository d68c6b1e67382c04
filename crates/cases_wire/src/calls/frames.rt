//! Calls of ams_tcp.

use ads_base::{NoMemory, Octets};
use ams_tcp::{Cut, Splitter, put_frame};
use case_sheets::{Answer, Args, Fault, is_same};
use std::alloc::Global;

pub fn make(
    alloc: Global,
    splitter: &mut Splitter,
    call: &str,
    args: &mut Args<'_>,
    answer: &mut Answer,
) -> Result<(), Fault> {
    match call {
        "new" => {
            *splitter = Splitter::new(alloc)?;
            answer.say("ok");
        }
        "feed" => {
            splitter.feed(alloc, args.octets().as_slice())?;
            answer.say("ok");
        }
        "next" => say_cut(&splitter.next(alloc)?, answer),
        "broken" => match splitter.broken() {
            Some(header) => answer.hex(&header),
            None => answer.say("none"),
        },
        "stream" => stream(alloc, args.octets().as_slice(), answer)?,
        "put_frame" => framed(alloc, args.octets().as_slice(), args, answer)?,
        _ => return Err(Fault::NoCall),
    }
    Ok(())
}

fn say_cut(cut: &Cut, answer: &mut Answer) {
    match cut {
        Cut::Frame(ams) => {
            answer.say("frame");
            answer.hex(ams.as_slice());
        }
        Cut::NotYet => answer.say("not-yet"),
        Cut::Broken => answer.say("broken"),
    }
}

fn framed(
    alloc: Global,
    ams: &[u8],
    args: &mut Args<'_>,
    answer: &mut Answer,
) -> Result<(), NoMemory> {
    if ams.len() < 32 || ams.len() > 2_097_152 {
        args.refuse();
        return Ok(());
    }
    let mut frame = Octets::new(alloc);
    put_frame(alloc, ams, &mut frame)?;
    answer.hex(frame.as_slice());
    Ok(())
}

// The frames of a stream, and what stands behind them: the same whether it comes whole, byte by byte, or in two pieces,
// wherever it is cut.
fn stream(alloc: Global, bytes: &[u8], answer: &mut Answer) -> Result<(), NoMemory> {
    let whole = in_pieces(alloc, bytes, bytes.len())?;
    if !is_same_bytewise(alloc, bytes, whole.as_slice())? {
        answer.say("otherwise byte by byte");
    }
    for at in 0..bytes.len() {
        if !is_same_in_two(alloc, bytes, at, whole.as_slice())? {
            answer.name("otherwise where it is cut at", at as u64);
        }
    }
    answer.say_all(&whole);
    Ok(())
}

fn is_same_bytewise(alloc: Global, bytes: &[u8], whole: &[u8]) -> Result<bool, NoMemory> {
    match in_pieces(alloc, bytes, 1) {
        Ok(told) => Ok(is_same(told.as_slice(), whole)),
        Err(e) => Err(e),
    }
}

fn is_same_in_two(alloc: Global, bytes: &[u8], at: usize, whole: &[u8]) -> Result<bool, NoMemory> {
    match in_two(alloc, bytes, at) {
        Ok(told) => Ok(is_same(told.as_slice(), whole)),
        Err(e) => Err(e),
    }
}

fn in_two(alloc: Global, bytes: &[u8], at: usize) -> Result<Answer, NoMemory> {
    let mut splitter = Splitter::new(alloc)?;
    let mut told = Answer::new(alloc);
    let first = bytes.len().min(at);
    let (first, second) = bytes.split_at(first);
    let _ = drain(alloc, &mut splitter, first, &mut told)?;
    let end = drain(alloc, &mut splitter, second, &mut told)?;
    say_cut(&end, &mut told);
    Ok(told)
}

fn in_pieces(alloc: Global, bytes: &[u8], len: usize) -> Result<Answer, NoMemory> {
    let mut splitter = Splitter::new(alloc)?;
    let mut told = Answer::new(alloc);
    for piece in bytes.chunks(len.max(1)) {
        let _ = drain(alloc, &mut splitter, piece, &mut told)?;
    }
    let end = drain(alloc, &mut splitter, &[], &mut told)?;
    say_cut(&end, &mut told);
    Ok(told)
}

// Feeds a piece and tells of the frames that are whole with it; then what stands behind them.
fn drain(
    alloc: Global,
    splitter: &mut Splitter,
    piece: &[u8],
    told: &mut Answer,
) -> Result<Cut, NoMemory> {
    splitter.feed(alloc, piece)?;
    for _ in 0..u64::MAX {
        let cut = splitter.next(alloc)?;
        if !matches!(cut, Cut::Frame(_)) {
            return Ok(cut);
        }
        say_cut(&cut, told);
    }
    Ok(Cut::NotYet)
}

//! All runs, and how many went as wanted.

use crate::draft::{Case, Draft};
use crate::fault::Fault;
use crate::folder::Folder;
use crate::joined::joined;
use crate::line::take_line;
use crate::told::{tell_difference, tell_end, tell_fault};
use crate::{Came, Runs};
use std::str;
use std::thread::Threads;

/// The file that names the others.
const LIST: &str = "runs.txt";

/// The line between two runs of a file.
const PARTING: &str = "----";

/// How many runs went as wanted, how many did not, and how many files could not be read.
#[derive(Clone, Copy, Default)]
pub struct Tally {
    pub good: u64,
    pub differing: u64,
    pub unreadable: u64,
}

/// Tries each run that runs.txt names, and tells of each that differs or cannot be read.
pub fn try_all<T: Threads + Sync, R: Runs>(
    rt: &HostRuntime,
    threads: &T,
    program: &R,
) -> Result<Tally, Fault> {
    let mut tally = Tally::default();
    let mut folder = Folder::new(rt)?;
    let list = folder.read(LIST)?;
    let Ok(list) = str::from_utf8(list.as_slice()) else {
        return Err(Fault::Off("runs.txt is no text"));
    };
    for name in list.lines() {
        if !name.is_empty() {
            try_file(rt, threads, program, &mut folder, name, &mut tally)?;
        }
    }
    Ok(tally)
}

// The runs of one file, by its name.
fn try_file<T: Threads + Sync, R: Runs>(
    rt: &HostRuntime,
    threads: &T,
    program: &R,
    folder: &mut Folder,
    name: &str,
    tally: &mut Tally,
) -> Result<(), Fault> {
    let mut line = 0;
    match try_runs(rt, threads, program, folder, name, &mut line, tally) {
        Err(Fault::Off(what)) => {
            tally.unreadable = tally.unreadable.saturating_add(1);
            tell_fault(rt, name, line, what)
        }
        other => other,
    }
}

// The same; `line` is the number of the line that was read last.
fn try_runs<T: Threads + Sync, R: Runs>(
    rt: &HostRuntime,
    threads: &T,
    program: &R,
    folder: &mut Folder,
    name: &str,
    line: &mut u32,
    tally: &mut Tally,
) -> Result<(), Fault> {
    let bytes = folder.read(name)?;
    let mut draft = Draft::new(rt.alloc());
    try_text(
        rt,
        threads,
        program,
        folder,
        name,
        bytes.as_slice(),
        line,
        &mut draft,
        tally,
    )
}

// The runs of the text of a file.
fn try_text<T: Threads + Sync, R: Runs>(
    rt: &HostRuntime,
    threads: &T,
    program: &R,
    folder: &mut Folder,
    name: &str,
    bytes: &[u8],
    line: &mut u32,
    draft: &mut Draft,
    tally: &mut Tally,
) -> Result<(), Fault> {
    let Ok(text) = str::from_utf8(bytes) else {
        return Err(Fault::Off("the file is no text"));
    };
    for text in text.lines() {
        *line = line.saturating_add(1);
        if text == PARTING {
            let case = draft.finish(rt.alloc())?;
            try_case(rt, threads, program, name, *line, case, tally)?;
        } else {
            take_line(rt.alloc(), folder, draft, text)?;
        }
    }
    let case = draft.finish(rt.alloc())?;
    try_case(rt, threads, program, name, *line, case, tally)
}

// A run, which ends before this line of its file.
fn try_case<T: Threads + Sync, R: Runs>(
    rt: &HostRuntime,
    threads: &T,
    program: &R,
    name: &str,
    line: u32,
    case: Case,
    tally: &mut Tally,
) -> Result<(), Fault> {
    let Case {
        mut given,
        status,
        out,
    } = case;
    let wanted = given.take_wanted(rt.alloc(), status, out)?;
    let came = program.run_case(threads, rt.alloc(), given)?;
    if !program.takes_runs() {
        return tell(rt, name, line, &came, &wanted, tally);
    }
    let came = with_joined_log(rt, came)?;
    let wanted = with_joined_log(rt, wanted)?;
    tell(rt, name, line, &came, &wanted, tally)
}

// The same with its log by the bytes that were taken.
fn with_joined_log(rt: &HostRuntime, came: Came) -> Result<Came, Fault> {
    let mut came = came;
    came.log = joined(rt.alloc(), came.log.as_slice())?;
    Ok(came)
}

// A run that went as wanted is counted, and of another one is told how.
fn tell(
    rt: &HostRuntime,
    name: &str,
    line: u32,
    came: &Came,
    wanted: &Came,
    tally: &mut Tally,
) -> Result<(), Fault> {
    if is_as_wanted(came, wanted) {
        tally.good = tally.good.saturating_add(1);
        return Ok(());
    }
    tally.differing = tally.differing.saturating_add(1);
    tell_difference(rt, name, line)?;
    tell_end(rt, "came", came)?;
    tell_end(rt, "wanted", wanted)
}

fn is_as_wanted(came: &Came, wanted: &Came) -> bool {
    came.status == wanted.status
        && came.out.as_slice() == wanted.out.as_slice()
        && came.told.as_slice() == wanted.told.as_slice()
        && came.log.as_slice() == wanted.log.as_slice()
        && came.talk.as_slice() == wanted.talk.as_slice()
        && came.left.as_slice() == wanted.left.as_slice()
        && came.rows.as_slice() == wanted.rows.as_slice()
}

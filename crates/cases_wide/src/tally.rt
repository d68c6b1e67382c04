//! All runs, and how many went as wanted.

use crate::draft::Draft;
use crate::fault::Fault;
use crate::folder::Folder;
use crate::play::log_of;
use crate::told::tell_difference;
use std::str;
use std::thread::Threads;

/// The file that names the others.
const LIST: &str = "runs.txt";

/// The description of each run.
const PLANT: &str = "plant.toml";

/// The line between two runs of a file.
const PARTING: &str = "----";

/// How many runs went as wanted, and how many did not.
#[derive(Clone, Copy, Default)]
pub struct Tally {
    pub good: u64,
    pub differing: u64,
}

/// Tries each run of each file that runs.txt names, and tells of each that differs.
pub fn try_all<T: Threads + Sync>(rt: &HostRuntime, threads: &T) -> Result<Tally, Fault> {
    let mut tally = Tally::default();
    let mut folder = Folder::new(rt)?;
    let plant = folder.read(PLANT)?;
    let list = folder.read(LIST)?;
    let Ok(list) = str::from_utf8(list.as_slice()) else {
        return Err(Fault::Off("runs.txt is no text"));
    };
    for name in list.lines() {
        if !name.is_empty() {
            try_file(rt, threads, &mut folder, plant.as_slice(), name, &mut tally)?;
        }
    }
    Ok(tally)
}

// The runs of one file, by its name.
fn try_file<T: Threads + Sync>(
    rt: &HostRuntime,
    threads: &T,
    folder: &mut Folder,
    plant: &[u8],
    name: &str,
    tally: &mut Tally,
) -> Result<(), Fault> {
    let bytes = folder.read(name)?;
    let Ok(text) = str::from_utf8(bytes.as_slice()) else {
        return Err(Fault::Off("a file is no text"));
    };
    let mut draft = Draft::new(rt.alloc());
    let mut line: u32 = 0;
    for row in text.lines() {
        line = line.saturating_add(1);
        if row == PARTING {
            try_run(rt, threads, plant, name, line, &draft, tally)?;
            draft = Draft::new(rt.alloc());
        } else {
            draft.take(rt.alloc(), folder, row)?;
        }
    }
    try_run(rt, threads, plant, name, line, &draft, tally)
}

// A run, which ends before this line of its file: one that went as wanted is counted, and of another one is told how.
fn try_run<T: Threads + Sync>(
    rt: &HostRuntime,
    threads: &T,
    plant: &[u8],
    name: &str,
    line: u32,
    run: &Draft,
    tally: &mut Tally,
) -> Result<(), Fault> {
    let came = log_of(
        threads,
        rt.alloc(),
        run.others,
        plant,
        run.script.as_slice(),
    )?;
    if came.as_slice() == run.out.as_slice() {
        tally.good = tally.good.saturating_add(1);
        return Ok(());
    }
    tally.differing = tally.differing.saturating_add(1);
    tell_difference(rt, name, line, came.as_slice(), run.out.as_slice())
}

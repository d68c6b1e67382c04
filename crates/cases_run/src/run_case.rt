//! A run over files, a wire, a link, a sink, a disk and a keeper in memory.

ghost use Rattle.std.specs.Prelude.{[], IsTrue};
ghost use Rattle.ads_outside.specs.Opened.{are_new};

use ads_base::{NoMemory, Octets};
use ads_outside::{Files, Link, LinkMove, MemFiles, MemLink, MemSink, MemWire, Move, Sink, Wire};
use ads_run::{Status, run, run_program};
use persist_store::{Disk, MemDisk};
use run_sheets::{
    Came, CaseWire, Fault, Given, LinkCase, Runs, StoreCase, WireCase, log_text, open_new, rows_of,
    talk_of,
};
use sample_store::{Keeper, MapKeeper};
use signals::Signal;
use std::alloc::Global;
use std::io::ErrorKind;
use std::thread::Threads;

/// The program `ads`.
#[derive(Clone, Copy, Debug)]
pub struct Ads {
    /// Its wire takes frames in runs.
    pub takes_runs: bool,
}

impl Runs for Ads {
    fn takes_runs(&self) -> bool {
        self.takes_runs
    }

    fn run_case<T: Threads + Sync>(
        &self,
        threads: &T,
        alloc: Global,
        given: Given,
    ) -> Result<Came, Fault> {
        run_case(threads, alloc, given, self.takes_runs)
    }
}

// Runs the words that are given over the files, the wire, the link and the stores.
fn run_case<T: Threads + Sync>(
    threads: &T,
    alloc: Global,
    given: Given,
    takes_runs: bool,
) -> Result<Came, Fault> {
    if !open_new(alloc, given.wire.events.as_slice())? {
        return Err(Fault::Off("two connections have one number"));
    }
    run_given(threads, alloc, given, takes_runs)
}

// The same, where no two connections have one number.
fn run_given<T: Threads + Sync>(
    threads: &T,
    alloc: Global,
    given: Given,
    takes_runs: bool,
) -> Result<Came, Fault>
    requires { IsTrue (are_new given.wire.events []) }
{
    let Given {
        words,
        unreadable,
        files,
        failing_reads,
        failing_puts,
        parts,
        has_signals,
        told: _told,
        wire,
        link,
        stores,
    } = given;
    let WireCase {
        events,
        failing_calls,
        cuts,
        log: _log,
    } = wire;
    let LinkCase {
        events: link_events,
        failing_calls: link_fails,
        talk: _talk,
    } = link;
    let StoreCase {
        file,
        failing_disk,
        stop,
        left: _left,
        failing_keeper,
        rows: _rows,
    } = stores;
    let mut files = MemFiles::new(alloc, files, failing_reads);
    let wire = MemWire::new(alloc, events, failing_calls, cuts);
    let mut wire = CaseWire::new(wire, takes_runs);
    let mut link = MemLink::new(alloc, link_events, link_fails);
    let mut sink = MemSink::with_parts(alloc, failing_puts, parts);
    let mut disk = MemDisk::new(alloc, file, failing_disk, stop);
    let mut keeper = MapKeeper::new(alloc, failing_keeper);
    let status = run_words(
        threads,
        alloc,
        words,
        unreadable,
        has_signals,
        &mut files,
        &mut wire,
        &mut link,
        &mut sink,
        &mut disk,
        &mut keeper,
    );
    let came = came_of(
        alloc,
        status,
        sink.bytes(),
        wire.log().as_slice(),
        link.log(),
        &keeper,
    );
    with_file(came, disk.file())
}

// What came, with the file that is left.
fn with_file(came: Result<Came, Fault>, left: Octets) -> Result<Came, Fault> {
    let mut came = came?;
    came.left = left;
    Ok(came)
}

// The run with the program's signals, or with none. No type of the outside is named here: what is known of all of them at once
// keeps the search for contracts that no call can meet busy without an end.
fn run_words<T: Threads + Sync, F: Files, W: Wire, L: Link, S: Sink, D: Disk, K: Keeper>(
    threads: &T,
    alloc: Global,
    words: Vec<String>,
    unreadable: Option<ErrorKind>,
    has_signals: bool,
    files: &mut F,
    wire: &mut W,
    link: &mut L,
    sink: &mut S,
    disk: &mut D,
    keeper: &mut K,
) -> Result<Status, NoMemory> {
    if has_signals {
        let words = words_of_process(alloc, words, unreadable)?;
        return Ok(run_program(threads, alloc, words, files, wire, link, sink, disk, keeper));
    }
    Ok(run_without_signals(
        threads,
        alloc,
        words.as_slice(),
        files,
        wire,
        link,
        sink,
        disk,
        keeper,
    ))
}

// The words of a process: the program's name, and the words of a case; or why they cannot be read.
fn words_of_process(
    alloc: Global,
    words: Vec<String>,
    unreadable: Option<ErrorKind>,
) -> Result<Result<Vec<String>, ErrorKind>, NoMemory> {
    if let Some(kind) = unreadable {
        return Ok(Err(kind));
    }
    let mut all = words;
    let name = String::from_str(alloc, "ads")?;
    all.insert(0, name)?;
    Ok(Ok(all))
}

fn run_without_signals<T: Threads + Sync, F: Files, W: Wire, L: Link, S: Sink, D: Disk, K: Keeper>(
    threads: &T,
    alloc: Global,
    words: &[String],
    files: &mut F,
    wire: &mut W,
    link: &mut L,
    sink: &mut S,
    disk: &mut D,
    keeper: &mut K,
) -> Status {
    let none: Vec<Box<dyn Signal>> = Vec::new(alloc);
    run(
        threads, alloc, words, files, wire, link, sink, disk, keeper, none,
    )
}

// What came, but for the file that is left.
fn came_of(
    alloc: Global,
    status: Result<Status, NoMemory>,
    out: &[u8],
    log: &[Move],
    talk: &[LinkMove],
    keeper: &MapKeeper,
) -> Result<Came, Fault> {
    let status = status?;
    let out = Octets::copy_of(alloc, out)?;
    let log = log_text(alloc, log)?;
    let talk = talk_of(alloc, talk)?;
    let rows = rows_of(alloc, keeper)?;
    Ok(Came {
        status: status.number(),
        out,
        told: Octets::new(alloc),
        log,
        talk,
        left: Octets::new(alloc),
        rows,
    })
}

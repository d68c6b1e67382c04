//! A run of the daemon over files, a wire, a sink, a disk and a log in memory.

ghost use Rattle.std.specs.Prelude.{◌<◌, ◌^◌, [], IsTrue, length};
ghost use Rattle.ads_outside.specs.Opened.{are_new};

use crate::case_judge::CaseJudge;
use crate::case_told::CaseTold;
use ads_base::{Calls, ListOf, NoMemory, Octets};
use ads_outside::{Cuts, Files, MemFiles, MemSink, MemWire, Sink, Wire};
use daemon_log::{Chronicle, Noticeboard};
use daemon_outside::{MemBeacon, MemOutlet, MemStop, NoNames, NoPlaces, Onlooker, Stop};
use daemon_run::{Prepared, prepare, run_watched};
use daemon_signals::{NoRecordings, Played, read_sources};
use daemon_words::{OthersWord, ProfileWord, Setup};
use persist_store::{Disk, MemDisk};
use port_device::Manner;
use run_sheets::{Came, Fault, Given, Runs, StoreCase, WireCase, log_text, open_new};
use run_tasks::{Status, print_and_end};
use server_core::{Profile, Sources};
use signals::Signal;
use std::alloc::Global;
use std::thread::Threads;
use type_layout::Rights;
use watched_wire::Watched;

/// The program `adsd`.
#[derive(Clone, Copy, Debug)]
pub struct Adsd;

impl Runs for Adsd {
    fn run_case<T: Threads + Sync>(
        &self,
        threads: &T,
        alloc: Global,
        given: Given,
    ) -> Result<Came, Fault> {
        run_case(threads, alloc, given)
    }
}

/// The wire of a case, with what looks on.
type CaseWire = Watched<MemWire, MemStop, CaseLog>;

/// The log of a case.
type CaseLog = Chronicle<NoNames, CaseJudge, MemOutlet, MemBeacon, MemBeacon>;

// Runs the words that are given over the files, the wire and the store.
fn run_case<T: Threads + Sync>(threads: &T, alloc: Global, given: Given) -> Result<Came, Fault> {
    if !open_new(alloc, given.wire.events.as_slice())? {
        return Err(Fault::Off("two connections have one number"));
    }
    run_given(threads, alloc, given)
}

// The same, where no two connections have one number.
fn run_given<T: Threads + Sync>(threads: &T, alloc: Global, given: Given) -> Result<Came, Fault>
    requires { IsTrue (are_new given.wire.events []) }
{
    let Given {
        words,
        unreadable: _unreadable,
        files,
        failing_reads,
        failing_puts,
        parts,
        has_signals: _has_signals,
        told: _told,
        wire,
        link: _link,
        stores,
    } = given;
    let WireCase {
        events,
        failing_calls,
        cuts,
        log: _log,
    } = wire;
    let StoreCase {
        file,
        failing_disk,
        stop,
        left: _left,
        failing_keeper: _failing_keeper,
        rows: _rows,
    } = stores;
    let board = Noticeboard::new(alloc)?;
    let others = says(words.as_slice(), "--other-routes");
    let log = log_of(alloc, others, &board)?;
    let mut watched: CaseWire = Watched::new(
        MemWire::new(alloc, events, failing_calls, cuts),
        MemStop::new(u64::MAX),
        log,
    );
    let mut files = MemFiles::new(alloc, files, failing_reads);
    let mut sink = MemSink::with_parts(alloc, failing_puts, parts);
    let mut err = MemSink::new(alloc, Calls::new(alloc));
    let mut disk = MemDisk::new(alloc, file, failing_disk, stop);
    let status = run_words(
        threads,
        alloc,
        words.as_slice(),
        &mut files,
        &mut watched,
        &mut sink,
        &mut err,
        &mut disk,
        &board,
    );
    let ended = ended_of(alloc, status, &mut watched, err.bytes());
    came_of(alloc, ended, sink.bytes(), disk.file())
}

/// How a run ended, what was told on standard error, and the log of its wire.
#[derive(Drop)]
struct Ended {
    status: Status,
    told: Octets,
    log: Octets,
}

// The log ends; behind what was told on standard error stand its lines.
fn ended_of(
    alloc: Global,
    status: Result<Status, Fault>,
    watched: &mut CaseWire,
    err: &[u8],
) -> Result<Ended, Fault> {
    let status = status?;
    if let Status::BadDescription { number, item } = &status {
        watched.onlooker.refused(*number, *item);
    }
    watched.onlooker.finish();
    let mut told = Octets::copy_of(alloc, err)?;
    told.put(alloc, watched.onlooker.outlet().bytes())?;
    let log = log_text(alloc, watched.wire.log().as_slice())?;
    Ok(Ended { status, told, log })
}

fn came_of(
    alloc: Global,
    ended: Result<Ended, Fault>,
    out: &[u8],
    left: Octets,
) -> Result<Came, Fault> {
    let Ended { status, told, log } = ended?;
    let out = Octets::copy_of(alloc, out)?;
    Ok(Came {
        status: status.number(),
        out,
        told,
        log,
        talk: Octets::new(alloc),
        left,
        rows: Octets::new(alloc),
    })
}

// The words are read, and what they ask for is done. No type of the outside is named here, as in what it calls: what is known of
// all of them at once keeps the search for contracts that no call can meet busy without an end.
fn run_words<
    T: Threads + Sync,
    F: Files,
    W: Wire + Drop,
    P: Stop + Drop,
    O: Onlooker<W> + Drop,
    S: Sink,
    E: Sink,
    D: Disk,
>(
    threads: &T,
    alloc: Global,
    words: &[String],
    files: &mut F,
    watched: &mut Watched<W, P, O>,
    out: &mut S,
    err: &mut E,
    disk: &mut D,
    board: &Noticeboard,
) -> Result<Status, Fault> {
    match prepare(alloc, words, files, &NoPlaces, out, err) {
        Prepared::Ended(status) => Ok(status),
        Prepared::Ready(setup) => {
            let mut recordings = NoRecordings;
            match read_sources(alloc, setup.signals.as_slice(), files, &mut recordings) {
                Err(fault) => {
                    let text = fault.sentence(alloc)?;
                    Ok(print_and_end(err, text.as_slice(), Status::Usage))
                }
                Ok(list) => Ok(serve_posted(
                    threads, alloc, &setup, list, files, watched, out, disk, board,
                )?),
            }
        }
    }
}

// What becomes of events and saves is posted on the board.
fn serve_posted<
    T: Threads + Sync,
    F: Files,
    W: Wire + Drop,
    P: Stop + Drop,
    O: Onlooker<W> + Drop,
    S: Sink,
    D: Disk,
>(
    threads: &T,
    alloc: Global,
    setup: &Setup,
    list: ListOf<Played>,
    files: &mut F,
    watched: &mut Watched<W, P, O>,
    out: &mut S,
    disk: &mut D,
    board: &Noticeboard,
) -> Result<Status, NoMemory> {
    let told = CaseTold {
        board: board.handle()?,
    };
    serve_signals(threads, alloc, setup, list, files, watched, out, disk, told)
}

// Serves with the signals of the list.
fn serve_signals<
    T: Threads + Sync,
    F: Files,
    W: Wire + Drop,
    P: Stop + Drop,
    O: Onlooker<W> + Drop,
    S: Sink,
    D: Disk,
>(
    threads: &T,
    alloc: Global,
    setup: &Setup,
    list: ListOf<Played>,
    files: &mut F,
    watched: &mut Watched<W, P, O>,
    out: &mut S,
    disk: &mut D,
    told: CaseTold,
) -> Result<Status, NoMemory> {
    let mut signals: Vec<Box<dyn Signal>> = Vec::new(alloc);
    for played in list.into_vec() {
        signals.push(Box::new(alloc, played)?)?;
    }
    if signals.len() > 1_024 {
        return Err(NoMemory);
    }
    Ok(serve_with(
        threads, alloc, setup, files, watched, out, disk, told, signals,
    ))
}

// Serves with these signals.
fn serve_with<
    T: Threads + Sync,
    F: Files,
    W: Wire + Drop,
    P: Stop + Drop,
    O: Onlooker<W> + Drop,
    S: Sink,
    D: Disk,
    G: Sources,
>(
    threads: &T,
    alloc: Global,
    setup: &Setup,
    files: &mut F,
    watched: &mut Watched<W, P, O>,
    out: &mut S,
    disk: &mut D,
    told: CaseTold,
    signals: G,
) -> Status
    requires few { length (G.waves signals) < 2 ^ 32 }
{
    run_watched(
        threads,
        alloc,
        profile_of(setup),
        &setup.description,
        &setup.listen,
        &setup.store,
        setup.save_ticks(),
        files,
        watched,
        out,
        disk,
        told,
        signals,
    )
}

// Whether this is one of the words.
fn says(words: &[String], wanted: &str) -> bool {
    for word in words {
        if word.as_str() == wanted {
            return true;
        }
    }
    false
}

fn log_of(alloc: Global, lets_others_in: bool, board: &Noticeboard) -> Result<CaseLog, NoMemory> {
    // As many signals as a setup has at most, so that each accepted description is read.
    let judge = CaseJudge {
        signals: 1_024,
        lets_others_in,
    };
    Ok(Chronicle::new(
        alloc,
        0,
        false,
        NoNames,
        judge,
        board.handle()?,
        MemOutlet::new(alloc, Cuts::new(alloc)),
        MemBeacon::new(alloc),
        MemBeacon::new(alloc),
    ))
}

fn profile_of(setup: &Setup) -> Profile {
    Profile {
        manner: manner_of(setup.profile),
        others: others_of(setup.others),
    }
}

fn manner_of(word: ProfileWord) -> Manner {
    match word {
        ProfileWord::Wide => Manner::Wide,
        ProfileWord::Strict => Manner::Strict,
    }
}

fn others_of(word: Option<OthersWord>) -> Option<Rights> {
    match word {
        Some(OthersWord::Read) => Some(Rights::Read),
        Some(OthersWord::Write) => Some(Rights::Write),
        None => None,
    }
}

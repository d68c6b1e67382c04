//! Runs of `serve` with boxed signals, which count their drops.

ghost use Rattle.std.specs.Prelude.{[], IsTrue};
ghost use Rattle.ads_outside.specs.Opened.{are_new};

use crate::counted::Counted;
use ads_base::{Calls, ListOf, NoMemory, Octets};
use ads_outside::{
    Cuts, Events, Files, Link, LinkEvents, MemFiles, MemLink, MemSink, MemWire, NamedFile,
    NamedFiles, Sink, Wire,
};
use ads_run::run;
use persist_store::{Disk, MemDisk};
use run_sheets::open_new;
use sample_store::{Keeper, MapKeeper};
use signals::Signal;
use std::alloc::Global;
use std::cell::Cell;
use std::rc::Rc;
use std::test::Fail;
use std::thread::Threads;

// A port with a symbol that follows signal 1 of two.
const PLANT: &[u8] =
    b"schema = 1\nnet = \"5.1.2.3.1.1\"\n[[port]]\nport = 851\nname = \"Plc\"\nmajor = 1\nminor = 0\nbuild = 0\ndata = 4\n[[port.symbol]]\nname = \"Main.wave\"\ntype = \"INT\"\narea = \"data\"\noffset = 0\nsignal = 1\n";

// A description that breaks a rule.
const BROKEN: &[u8] = b"schema = 2\n";

const WORDS: &[&str] = &[
    "serve",
    "plant.toml",
    "--listen",
    "127.0.0.1:48898",
    "--events",
    "10",
];

// The wire ends: all is done.
#[test]
fn at_status_0(rt: HostRuntime) -> Result<(), Fail> {
    let alloc = rt.alloc();
    assert_eq!(rt; served(&rt, alloc, PLANT, Calls::new(alloc))?, (0, 2));
    Ok(())
}

// The description is refused.
#[test]
fn at_status_2(rt: HostRuntime) -> Result<(), Fail> {
    let alloc = rt.alloc();
    assert_eq!(rt; served(&rt, alloc, BROKEN, Calls::new(alloc))?, (2, 2));
    Ok(())
}

// The wire can't be started.
#[test]
fn at_status_6(rt: HostRuntime) -> Result<(), Fail> {
    let alloc = rt.alloc();
    let mut first = Calls::new(alloc);
    first.push(alloc, 1)?;
    assert_eq!(rt; served(&rt, alloc, PLANT, first)?, (6, 2));
    Ok(())
}

// The status of a run over this description, of whose wire these calls fail, and how many of its two signals were dropped.
fn served<T: Threads + Sync>(
    threads: &T,
    alloc: Global,
    plant: &[u8],
    failing: Calls,
) -> Result<(u8, u64), NoMemory> {
    let events = ListOf::new(alloc);
    if !open_new(alloc, events.as_slice())? {
        return Err(NoMemory);
    }
    served_by(threads, alloc, plant, events, failing)
}

// The same with these events.
fn served_by<T: Threads + Sync>(
    threads: &T,
    alloc: Global,
    plant: &[u8],
    events: Events,
    failing: Calls,
) -> Result<(u8, u64), NoMemory>
    requires { IsTrue (are_new events []) }
{
    let mut files = MemFiles::new(alloc, plant_files(alloc, plant)?, Calls::new(alloc));
    let mut wire = MemWire::new(alloc, events, failing, Cuts::new(alloc));
    let mut link = MemLink::new(alloc, LinkEvents::new(alloc), Calls::new(alloc));
    let mut sink = MemSink::new(alloc, Calls::new(alloc));
    let mut disk = MemDisk::new(alloc, Octets::new(alloc), Calls::new(alloc), None);
    let mut keeper = MapKeeper::new(alloc, Calls::new(alloc));
    run_counted(
        threads,
        alloc,
        &mut files,
        &mut wire,
        &mut link,
        &mut sink,
        &mut disk,
        &mut keeper,
    )
}

// Runs the words, and says how the run ended and how many signals were dropped.
fn run_counted<T: Threads + Sync, F: Files, W: Wire, L: Link, S: Sink, D: Disk, K: Keeper>(
    threads: &T,
    alloc: Global,
    files: &mut F,
    wire: &mut W,
    link: &mut L,
    sink: &mut S,
    disk: &mut D,
    keeper: &mut K,
) -> Result<(u8, u64), NoMemory> {
    let words = words(alloc)?;
    let drops = Rc::new(alloc, Cell::new(0))?;
    let first = Counted {
        drops: drops.clone()?,
    };
    let second = Counted {
        drops: drops.clone()?,
    };
    let mut signals: Vec<Box<dyn Signal>> = Vec::new(alloc);
    signals.push(Box::new(alloc, first)?)?;
    signals.push(Box::new(alloc, second)?)?;
    let status = run(
        threads,
        alloc,
        words.as_slice(),
        files,
        wire,
        link,
        sink,
        disk,
        keeper,
        signals,
    );
    Ok((status.number(), drops.get()))
}

fn words(alloc: Global) -> Result<Vec<String>, NoMemory> {
    let mut words = Vec::new(alloc);
    for word in WORDS {
        words.push(String::from_str(alloc, word)?)?;
    }
    Ok(words)
}

fn plant_files(alloc: Global, plant: &[u8]) -> Result<NamedFiles, NoMemory> {
    let mut files = NamedFiles::new(alloc);
    let name = Octets::copy_of(alloc, b"plant.toml")?;
    let bytes = Octets::copy_of(alloc, plant)?;
    files.push(alloc, NamedFile { name, bytes })?;
    Ok(files)
}

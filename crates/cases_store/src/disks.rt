//! Runs of a store over a disk.

ghost use Rattle.persist_store.specs.Store.{IsReady};

use crate::answer::Answer;
use crate::fault::Fault;
use crate::names::Names;
use crate::words::Words;
use ads_base::{Calls, Octets};
use persist_store::{
    Disk, DiskRead, Entries, MemDisk, Saved, Stop, Store, StoreOpen, Synced, Wrote,
};
use real_disk::RealDisk;
use std::alloc::Global;
use std::fs;

/// The file of a real disk, where the program runs.
const PATH: &str = "store.tmp";

/// A run of a store: the calls that fail, the stop of the machine, and the bodies that are saved.
#[derive(Drop)]
struct Run {
    fails: Calls,
    stop: Option<Stop>,
    bodies: Vec<Octets>,
}

/// Runs over a disk in memory, each over the file that the one before left.
pub fn try_memory(
    alloc: Global,
    names: &Names,
    words: &mut Words<'_>,
    answer: &mut Answer,
) -> Result<(), Fault> {
    let mut file = first_file(alloc, names, words)?;
    for _ in 0..u64::MAX {
        if !words.takes("run") {
            break;
        }
        let Run {
            fails,
            stop,
            bodies,
        } = next_run(alloc, names, words)?;
        let mut disk = MemDisk::new(alloc, file, fails, stop);
        run_store(alloc, &mut disk, bodies.as_slice(), names, answer)?;
        file = disk.file();
    }
    tell_left(names, words, file.as_slice(), answer)
}

/// Runs over a file of the system, which is gone afterwards.
pub fn try_real(
    rt: &HostRuntime,
    names: &Names,
    words: &mut Words<'_>,
    answer: &mut Answer,
) -> Result<(), Fault> {
    let file = first_file(rt.alloc(), names, words)?;
    if file.len() > 0 {
        fs::write(rt, PATH, file.as_slice())?;
    }
    for _ in 0..u64::MAX {
        if !words.takes("run") {
            break;
        }
        let run = next_run(rt.alloc(), names, words)?;
        let mut disk = RealDisk::new(rt.clone()?);
        run_store(rt.alloc(), &mut disk, run.bodies.as_slice(), names, answer)?;
    }
    let file = fs::read(rt, PATH)?;
    fs::remove_file(rt, PATH)?;
    tell_left(names, words, file.as_slice(), answer)
}

// The bytes that a file has at first, if a case tells them.
fn first_file(alloc: Global, names: &Names, words: &mut Words<'_>) -> Result<Octets, Fault> {
    if words.takes("file") {
        names.octets(words.word())
    } else {
        Ok(Octets::new(alloc))
    }
}

fn next_run(alloc: Global, names: &Names, words: &mut Words<'_>) -> Result<Run, Fault> {
    let mut run = Run {
        fails: Calls::new(alloc),
        stop: None,
        bodies: Vec::new(alloc),
    };
    for _ in 0..u64::MAX {
        if words.takes("fails") {
            run.fails.push(alloc, words.number()?)?;
        } else if words.takes("stop") {
            let call = words.number()?;
            let tail = names.octets(words.word())?;
            run.stop = Some(Stop { call, tail });
        } else if words.takes("save") {
            run.bodies.push(names.octets(words.word())?)?;
        } else {
            break;
        }
    }
    Ok(run)
}

// Whether the file that is left is the one that a case tells.
fn tell_left(
    names: &Names,
    words: &mut Words<'_>,
    file: &[u8],
    answer: &mut Answer,
) -> Result<(), Fault> {
    if words.takes("left") {
        let wanted = names.octets(words.word())?;
        answer.say(if wanted.as_slice() == file {
            "so"
        } else {
            "otherwise"
        });
    }
    Ok(())
}

// Opens the store of a disk, and saves these bodies one after another.
fn run_store<D: Disk>(
    alloc: Global,
    disk: &mut D,
    bodies: &[Octets],
    names: &Names,
    answer: &mut Answer,
) -> Result<(), Fault> {
    match Store::open(alloc, disk, PATH)? {
        StoreOpen::Failed => answer.say("failed"),
        StoreOpen::Ready(mut store) => {
            tell_body(&store, names, answer);
            save_all(alloc, disk, &mut store, bodies, answer)?;
            if !bodies.is_empty() {
                tell_body(&store, names, answer);
            }
        }
    }
    Ok(())
}

fn tell_body(store: &Store, names: &Names, answer: &mut Answer) {
    match store.body() {
        None => answer.say("nothing"),
        Some(body) => answer.say(names.name_of(body)),
    }
}

fn save_all<D: Disk>(
    alloc: Global,
    disk: &mut D,
    store: &mut Store,
    bodies: &[Octets],
    answer: &mut Answer,
) -> Result<(), Fault>
    requires { IsReady D.contents D.may_leave disk.old store.old }
{
    for body in bodies {
        save_one(alloc, disk, store, body.as_slice(), answer)?;
    }
    Ok(())
}

fn save_one<D: Disk>(
    alloc: Global,
    disk: &mut D,
    store: &mut Store,
    body: &[u8],
    answer: &mut Answer,
) -> Result<(), Fault>
    requires { IsReady D.contents D.may_leave disk.old store.old }
    ensures { IsReady D.contents D.may_leave disk.new store.new }
{
    if Entries::read(body).is_none() {
        return Err(Fault::Off("what is to be saved is no body"));
    }
    let saved = store.save(alloc, disk, body)?;
    answer.say(word_of(saved));
    Ok(())
}

fn word_of(saved: Saved) -> &'static str {
    match saved {
        Saved::Done => "done",
        Saved::Failed => "failed",
        Saved::Limit => "limit",
        Saved::Shut => "shut",
    }
}

/// Each call on a real disk that was not opened: how many bytes, or that it failed, and in the end how many failed.
pub fn try_unopened(rt: &HostRuntime, answer: &mut Answer) -> Result<(), Fault> {
    let mut disk = RealDisk::new(rt.clone()?);
    let mut room = [0u8; 1];
    let read = matches!(disk.read(0, &mut room), DiskRead::Failed);
    let wrote = matches!(disk.write_at(0, &room), Wrote::Failed);
    let synced = matches!(disk.sync(), Synced::Failed);
    for failed in [read, wrote, synced] {
        answer.say(if failed { "failed" } else { "done" });
    }
    answer.tell(disk.faults());
    Ok(())
}

/// The entries of a body, each by its port, name, form and bytes.
pub fn try_entries(names: &Names, words: &mut Words<'_>, answer: &mut Answer) -> Result<(), Fault> {
    let body = names.octets(words.word())?;
    match Entries::read(body.as_slice()) {
        None => answer.say("none"),
        Some(mut entries) => tell_entries(&mut entries, answer),
    }
    Ok(())
}

fn tell_entries(entries: &mut Entries<'_>, answer: &mut Answer) {
    for _ in 0..u64::MAX {
        let Some(entry) = entries.next() else {
            break;
        };
        answer.tell(u64::from(entry.port));
        answer.bytes(entry.name);
        answer.bytes(entry.form);
        answer.bytes(entry.bytes);
    }
    answer.say("end");
}

//! The plant of a setup is served over the real outside.

ghost use Rattle.std.specs.Prelude.{◌≡◌, ◌<◌, ◌^◌, length, option_map};
ghost use Rattle.adsd_program.specs.Profiles.{manner_said, rights_said};

use crate::kept_body::{first_body, net_in, standing_body};
use crate::kept_description::{KeptDescription, kept_text, rule_of};
use crate::log_told::LogTold;
use crate::plant_judge::PlantJudge;
use crate::read_before::ReadBefore;
use crate::real_names::RealNames;
use crate::real_outlet::RealOutlet;
use ads_base::{ListOf, NetId, NoMemory, Octets};
use ads_edge::{AllowedNet, RealFiles, RealWire, WatchPlan, given_doors};
use ads_outside::Sink;
use cli_words::Text;
use daemon_edge::{SignalStop, StatusFile, SystemdBeacon, moment_now};
use daemon_entries::{count_in, unfit_names};
use daemon_log::{Chronicle, Noticeboard};
use daemon_recordings::SqliteRecordings;
use daemon_run::run_watched;
use daemon_signals::{Played, SourceFault, Trouble, read_sources};
use daemon_words::{IpNet, LogForm, OthersWord, ProfileWord, Setup};
use local_router::Routed;
use port_device::Manner;
use run_tasks::{
    Status, end_without_memory, print_and_end, print_line, print_outcome, read_description,
};
use server_core::{Profile, Sources};
use signals::Signal;
use std::io::ErrorKind;
use std::thread::Threads;
use store_file::{StoreFault, StoreFile, tell_unfit};
use type_layout::Rights;
use watched_wire::Watched;

/// What is told where no signal can be seen.
const UNSEEN_SIGNALS: &str =
    "stop: /proc/self/status cannot be opened, so no signal is seen: only the stop file ends it in order";

/// The log of a daemon over real sockets.
type RealLog = Chronicle<RealNames, PlantJudge, RealOutlet, SystemdBeacon, StatusFile<HostRuntime>>;

/// The wire of a daemon, with what looks on.
type RealWatched = Watched<Routed<RealWire<HostRuntime>>, SignalStop<HostRuntime>, RealLog>;

/// What is known before anything is made or opened: the description that was read, the log and its board, and the body that the
/// description has at first.
#[derive(Drop)]
struct Begun {
    read: ReadBefore,
    board: Noticeboard,
    log: RealLog,
    first: Octets,
}

/// What is served with: the store's file and the signals.
#[derive(Drop)]
struct Ready {
    disk: StoreFile,
    list: ListOf<Played>,
}

/// Serves the plant of a setup until it is stopped. The description is read and judged first: where it is refused or can't be read,
/// nothing is made or opened. A store that another daemon keeps, that can't be opened or is damaged, and a signal that can't be
/// made, end it with a sentence on standard error before anything is served.
pub(crate) fn serve_setup<T: Threads + Sync, S: Sink, E: Sink>(
    rt: &HostRuntime,
    threads: &T,
    setup: &Setup,
    files: &mut RealFiles<HostRuntime>,
    out: &mut S,
    err: &mut E,
) -> Status {
    match serve_described(rt, threads, setup, files, out, err) {
        Ok(status) => status,
        Err(NoMemory) => end_without_memory(out),
    }
}

// The same; want of memory is not told yet.
fn serve_described<T: Threads + Sync, S: Sink, E: Sink>(
    rt: &HostRuntime,
    threads: &T,
    setup: &Setup,
    files: &mut RealFiles<HostRuntime>,
    out: &mut S,
    err: &mut E,
) -> Result<Status, NoMemory> {
    let board = Noticeboard::new(rt.alloc())?;
    let mut log = log_of(rt, setup, &board)?;
    let mut read = described(rt, setup)?;
    match judged(rt, setup, &mut read, &mut log, out)? {
        Err(status) => {
            end_refused(&mut log, &status);
            Ok(status)
        }
        Ok(first) => {
            let begun = Begun {
                read,
                board,
                log,
                first,
            };
            serve_begun(rt, threads, setup, files, begun, out, err)
        }
    }
}

// The description, which is read once: for the server and for all that is told of it.
fn described(rt: &HostRuntime, setup: &Setup) -> Result<ReadBefore, NoMemory> {
    let real = RealFiles::new(rt.alloc(), *rt)?;
    Ok(ReadBefore::new(real, setup.description.as_str()))
}

// The body that the description has at first, or the one that was kept in its place; or how the run ends, since it is refused or
// can't be read.
fn judged<S: Sink>(
    rt: &HostRuntime,
    setup: &Setup,
    read: &mut ReadBefore,
    log: &mut RealLog,
    out: &mut S,
) -> Result<Result<Octets, Status>, NoMemory> {
    let signals = setup.signals.len() as u32;
    if let Some(text) = read.text() {
        if let Some(first) = first_body(rt.alloc(), text, signals)? {
            return Ok(Ok(first));
        }
    }
    if let Some(first) = stand_in(rt, setup, read, log)? {
        return Ok(Ok(first));
    }
    match read_description(rt.alloc(), &setup.description, signals, read)? {
        Err(told) => Ok(Err(print_outcome(out, told))),
        Ok(_) => Err(NoMemory),
    }
}

// The body that the last accepted description has at first, where it was kept: it stands in for the named one, and that is told.
fn stand_in(
    rt: &HostRuntime,
    setup: &Setup,
    read: &mut ReadBefore,
    log: &mut RealLog,
) -> Result<Option<Octets>, NoMemory> {
    let Some(name) = setup.kept_name(rt.alloc())? else {
        return Ok(None);
    };
    let Some(text) = kept_text(rt, name.as_str())? else {
        return Ok(None);
    };
    let signals = setup.signals.len() as u32;
    let first = first_body(rt.alloc(), text.as_slice(), signals)?;
    if first.is_some() {
        log.stands_in(name.as_str(), rule_of(rt.alloc(), read.text(), signals)?);
        read.stand_in(text);
    }
    Ok(first)
}

// A description that is refused is told, and the log ends.
fn end_refused(log: &mut RealLog, status: &Status) {
    if let Status::BadDescription { number, item } = status {
        log.refused(*number, *item);
    }
    log.finish();
}

// Serves an accepted description: the store's file is opened, and the signals are read.
fn serve_begun<T: Threads + Sync, S: Sink, E: Sink>(
    rt: &HostRuntime,
    threads: &T,
    setup: &Setup,
    files: &mut RealFiles<HostRuntime>,
    begun: Begun,
    out: &mut S,
    err: &mut E,
) -> Result<Status, NoMemory> {
    let mut begun = begun;
    match made_ready(rt, setup, files, &mut begun, out, err)? {
        Err(status) => {
            begun.log.finish();
            Ok(status)
        }
        Ok(ready) => serve_ready(rt, threads, setup, begun, ready, out),
    }
}

// The store's file and the signals; or how the run ends, since one of them is not had.
fn made_ready<S: Sink, E: Sink>(
    rt: &HostRuntime,
    setup: &Setup,
    files: &mut RealFiles<HostRuntime>,
    begun: &mut Begun,
    out: &mut S,
    err: &mut E,
) -> Result<Result<Ready, Status>, NoMemory> {
    let disk = match store_of(rt, setup, begun, out, err)? {
        Ok(disk) => disk,
        Err(status) => return Ok(Err(status)),
    };
    let mut recordings = SqliteRecordings::new(*rt);
    match read_sources(rt.alloc(), setup.signals.as_slice(), files, &mut recordings) {
        Err(fault) => Ok(Err(tell_source(rt, &fault, err))),
        Ok(list) => Ok(Ok(Ready { disk, list })),
    }
}

// The store's file, open and locked, and told; or how the run ends, since it is not had.
fn store_of<S: Sink, E: Sink>(
    rt: &HostRuntime,
    setup: &Setup,
    begun: &mut Begun,
    out: &mut S,
    err: &mut E,
) -> Result<Result<StoreFile, Status>, NoMemory> {
    let Some(name) = &setup.store else {
        return Ok(Ok(StoreFile::nothing(rt.alloc())?));
    };
    let started = StoreFile::start(
        rt,
        begun.board.handle()?,
        name.as_str(),
        setup.begins_damaged,
    );
    let mut disk = match started {
        Ok(disk) => disk,
        Err(StoreFault::Memory) => return Err(NoMemory),
        Err(fault) => return Ok(Err(tell_fault(rt, setup, name, &fault, out, err)?)),
    };
    match standing_body(rt.alloc(), &mut disk, name.as_str())? {
        Some(body) => {
            tell_store(rt, name, &disk, body.as_slice(), begun)?;
            Ok(Ok(disk))
        }
        None => {
            let fault = StoreFault::System(ErrorKind::Other.into());
            Ok(Err(tell_fault(rt, setup, name, &fault, out, err)?))
        }
    }
}

// Why the store's file is not had is told: on standard error, for systemd with the level of what ends the daemon, and but for a
// file that another daemon keeps as the last line of the output.
fn tell_fault<S: Sink, E: Sink>(
    rt: &HostRuntime,
    setup: &Setup,
    name: &Text,
    fault: &StoreFault,
    out: &mut S,
    err: &mut E,
) -> Result<Status, NoMemory> {
    let level = if setup.log == LogForm::Journal {
        "<3>"
    } else {
        ""
    };
    let (name, why) = (name.as_str(), fault.sentence(rt.alloc())?);
    let why = why.as_str();
    let text = format!(in rt.alloc(); "{level}adsd: {name}: {why}\n")?;
    let status = print_and_end(err, text.as_bytes(), Status::StoreFault);
    match fault {
        StoreFault::Taken => Ok(status),
        _ => Ok(print_line(rt.alloc(), Status::StoreFault, out)),
    }
}

// Why a signal is not had is told.
fn tell_source<E: Sink>(rt: &HostRuntime, fault: &SourceFault, err: &mut E) -> Status {
    match fault.sentence(rt.alloc()) {
        Ok(text) => print_and_end(err, text.as_slice(), status_of_trouble(fault.trouble)),
        Err(NoMemory) => end_without_memory(err),
    }
}

fn status_of_trouble(trouble: Trouble) -> Status {
    match trouble {
        Trouble::Memory => Status::Memory,
        Trouble::Unreadable | Trouble::NoRecording => Status::ReadFault,
        Trouble::TooLong => Status::TooLong,
        Trouble::Line(_) | Trouble::Empty | Trouble::NoName | Trouble::Size | Trouble::TooMany =>
            Status::Usage,
    }
}

// What stands in the store is told, and what of it fits nothing of the description.
fn tell_store(
    rt: &HostRuntime,
    name: &Text,
    disk: &StoreFile,
    body: &[u8],
    begun: &mut Begun,
) -> Result<(), NoMemory> {
    let (entries, bytes) = (count_in(body), body.len() as u64);
    match disk.link() {
        None => begun.log.store_opened(name.as_str(), entries, bytes),
        Some(link) => {
            let name = name.as_str();
            let text = format!(in rt.alloc(); "{name}, a link to {link}")?;
            begun.log.store_opened(text.as_str(), entries, bytes);
        }
    }
    let names = unfit_names(rt.alloc(), body, begun.first.as_slice())?;
    tell_unfit(rt.alloc(), &begun.board, names.as_slice());
    Ok(())
}

// Serves with a log.
fn serve_ready<T: Threads + Sync, S: Sink>(
    rt: &HostRuntime,
    threads: &T,
    setup: &Setup,
    begun: Begun,
    ready: Ready,
    out: &mut S,
) -> Result<Status, NoMemory> {
    let Begun {
        mut read,
        board,
        log,
        first: _first,
    } = begun;
    let Ready { mut disk, list } = ready;
    let mut watched = watched_of(rt, setup, &read, log)?;
    let status = serve_posted(
        rt,
        threads,
        setup,
        list,
        &mut read,
        &mut watched,
        out,
        &mut disk,
        &board,
    );
    watched.onlooker.finish();
    match status {
        Ok(status) => Ok(status_over(rt, status, &disk, out)),
        Err(NoMemory) => Err(NoMemory),
    }
}

// A run that was stopped in order all the same ends with the store's fault where its name does not lead to what was saved, or a copy
// is not made.
fn status_over<S: Sink>(rt: &HostRuntime, status: Status, disk: &StoreFile, out: &mut S) -> Status {
    match status {
        Status::Done if !disk.is_well() => print_line(rt.alloc(), Status::StoreFault, out),
        status => status,
    }
}

// The wire with its stop and its log.
fn watched_of(
    rt: &HostRuntime,
    setup: &Setup,
    read: &ReadBefore,
    log: RealLog,
) -> Result<RealWatched, NoMemory> {
    let mut log = log;
    let mut stop = SignalStop::new(rt.alloc(), *rt, copy_of_name(rt, &setup.stop_file)?)?;
    if !stop.sees_signals() {
        log.complain(UNSEEN_SIGNALS);
    } else if !stop.is_terminate_blocked() {
        log.warn("stop: SIGTERM is not blocked, it ends the process at once");
    }
    if let Some(word) = setup.others {
        log.lets_others_in(word.sentence());
    }
    let wire = wire_of(rt, setup, read)?;
    Ok(Watched::new(wire, stop, log))
}

// The wire, with the doors and the allow list of the setup.
fn wire_of(
    rt: &HostRuntime,
    setup: &Setup,
    read: &ReadBefore,
) -> Result<Routed<RealWire<HostRuntime>>, NoMemory> {
    let net = router_net(rt, setup, read.text())?;
    let nets = nets_of(rt, setup.allow.as_slice())?;
    let watch = WatchPlan {
        settle: setup.settle,
        anew: read.stands_in(),
    };
    let doors = RealWire::with_doors(rt.alloc(), *rt, "adsd", given_doors(rt), nets, watch)?;
    Ok(Routed::new(rt.alloc(), doors, net))
}

// Serves over the wire; what becomes of events and saves is posted on the board.
fn serve_posted<T: Threads + Sync, S: Sink>(
    rt: &HostRuntime,
    threads: &T,
    setup: &Setup,
    list: ListOf<Played>,
    files: &mut ReadBefore,
    watched: &mut RealWatched,
    out: &mut S,
    disk: &mut StoreFile,
    board: &Noticeboard,
) -> Result<Status, NoMemory> {
    let store = if setup.store.is_some() {
        Some(disk.handle()?)
    } else {
        None
    };
    let told = LogTold {
        rt: *rt,
        board: board.handle()?,
        store,
        before: None,
    };
    serve_signals(rt, threads, setup, list, files, watched, out, disk, told)
}

// Serves over the wire and the disk, with the signals of the list.
fn serve_signals<T: Threads + Sync, S: Sink>(
    rt: &HostRuntime,
    threads: &T,
    setup: &Setup,
    list: ListOf<Played>,
    files: &mut ReadBefore,
    watched: &mut RealWatched,
    out: &mut S,
    disk: &mut StoreFile,
    told: LogTold,
) -> Result<Status, NoMemory> {
    let mut signals: Vec<Box<dyn Signal>> = Vec::new(rt.alloc());
    for played in list.into_vec() {
        signals.push(Box::new(rt.alloc(), played)?)?;
    }
    if signals.len() > 1_024 {
        return Err(NoMemory);
    }
    Ok(serve_with(rt, threads, setup, files, watched, out, disk, told, signals))
}

// Serves over the wire and the disk, with these signals.
fn serve_with<T: Threads + Sync, S: Sink, G: Sources>(
    rt: &HostRuntime,
    threads: &T,
    setup: &Setup,
    files: &mut ReadBefore,
    watched: &mut RealWatched,
    out: &mut S,
    disk: &mut StoreFile,
    told: LogTold,
    signals: G,
) -> Status
    requires few { length (G.waves signals) < 2 ^ 32 }
{
    run_watched(
        threads,
        rt.alloc(),
        profile_of(setup),
        &setup.description,
        &setup.listen,
        &setup.store,
        setup.save_ticks(),
        files,
        watched,
        out,
        disk,
        told,
        signals,
    )
}

// The log, with what judges descriptions for it.
fn log_of(rt: &HostRuntime, setup: &Setup, board: &Noticeboard) -> Result<RealLog, NoMemory> {
    let judge = PlantJudge {
        signals: setup.signals.len() as u32,
        lets_others_in: setup.others.is_some(),
        kept: KeptDescription::of_setup(rt, setup)?,
    };
    let file = StatusFile::new(rt.alloc(), *rt, &setup.status)?;
    Ok(Chronicle::new(
        rt.alloc(),
        moment_now(rt),
        setup.log != LogForm::Journal,
        RealNames,
        judge,
        board.handle()?,
        RealOutlet::of_form(setup.log),
        SystemdBeacon::new(rt),
        file,
    ))
}

// The NetId as which the wire answers like a router: that of the description, in the wide profile.
fn router_net(
    rt: &HostRuntime,
    setup: &Setup,
    text: Option<&[u8]>,
) -> Result<Option<NetId>, NoMemory> {
    match (setup.profile, text) {
        (ProfileWord::Wide, Some(text)) => net_in(rt.alloc(), text, setup.signals.len() as u32),
        _ => Ok(None),
    }
}

fn nets_of(rt: &HostRuntime, nets: &[IpNet]) -> Result<Vec<AllowedNet>, NoMemory> {
    let mut allowed = Vec::new(rt.alloc());
    for net in nets {
        allowed.push(AllowedNet {
            address: net.address,
            bits: net.bits,
        })?;
    }
    Ok(allowed)
}

// How requests are taken, and what machines without a route may do.
fn profile_of(setup: &Setup) -> Profile
    ensures manner { result.manner ≡ manner_said setup.now.profile }
    ensures others { result.others ≡ option_map rights_said setup.now.others }
{
    Profile {
        manner: manner_of(setup.profile),
        others: others_of(setup.others),
    }
}

fn manner_of(word: ProfileWord) -> Manner
    ensures { result ≡ manner_said word }
{
    match word {
        ProfileWord::Wide => Manner::Wide,
        ProfileWord::Strict => Manner::Strict,
    }
}

fn others_of(word: Option<OthersWord>) -> Option<Rights>
    ensures { result ≡ option_map rights_said word }
{
    match word {
        Some(OthersWord::Read) => Some(Rights::Read),
        Some(OthersWord::Write) => Some(Rights::Write),
        None => None,
    }
}

fn copy_of_name(rt: &HostRuntime, name: &Option<Text>) -> Result<Option<Text>, NoMemory> {
    match name {
        Some(name) => Ok(Some(Text::copy_of(rt.alloc(), name.as_str())?)),
        None => Ok(None),
    }
}

//! What is read before a daemon runs.

ghost use Rattle.std.specs.Prelude.{◌≡◌};

use crate::help::{HELP, VERSION};
use ads_base::{NoMemory, Octets};
use ads_outside::{Files, Got, Sink};
use cli_words::Text;
use daemon_outside::Places;
use daemon_words::{
    Asked, ConfigRead, Given, Setup, SetupFault, config_in, folders_of, read_words, setup_text,
    slips_of,
};
use run_tasks::{Status, end_without_memory, print_and_end, print_outcome, read_description};
use std::alloc::Global;

/// What the words of a daemon come to.
#[derive(Drop)]
pub enum Prepared {
    /// All is done.
    Ended(Status),
    /// This plant is to be served.
    Ready(Setup),
}

/// Reads the words behind the program's name, and the configuration that they name, and looks at what stands at the names of the
/// files. What ends here prints its answer, or the sentence that tells what is wrong to `err`.
pub fn prepare<F: Files, P: Places, S: Sink, E: Sink>(
    alloc: Global,
    words: &[String],
    files: &mut F,
    places: &P,
    out: &mut S,
    err: &mut E,
) -> Prepared
    ensures held { (F.state files.new).held ≡ (F.state files.old).held }
{
    match read_words(alloc, words) {
        Err(fault) => Prepared::Ended(tell_fault(alloc, &fault, err)),
        Ok(Asked::Help) => Prepared::Ended(print_and_end(out, HELP, Status::Done)),
        Ok(Asked::Version) => Prepared::Ended(print_and_end(out, VERSION, Status::Done)),
        Ok(Asked::Check(file)) => Prepared::Ended(check(alloc, &file, files, places, out, err)),
        Ok(Asked::Run(file, given)) => ready(alloc, &file, given, files, places, err),
    }
}

// The setup of this file and of what is given in words.
fn ready<F: Files, P: Places, E: Sink>(
    alloc: Global,
    file: &Text,
    given: Given,
    files: &mut F,
    places: &P,
    err: &mut E,
) -> Prepared
    ensures held { (F.state files.new).held ≡ (F.state files.old).held }
{
    match files.read(file.as_str()) {
        Got::Bytes(bytes) => match setup_of(alloc, file, given, &bytes, places, err) {
            Ok(setup) => Prepared::Ready(setup),
            Err(fault) => Prepared::Ended(tell_fault(alloc, &fault, err)),
        },
        Got::TooLong => unread(alloc, file, given, places, Status::TooLong, err),
        Got::Failed => unread(alloc, file, given, places, Status::ReadFault, err),
        Got::Memory => Prepared::Ended(end_without_memory(err)),
    }
}

// A file that can't be read ends the run, unless the words say that a description is kept, which may be served in its place.
fn unread<P: Places, E: Sink>(
    alloc: Global,
    file: &Text,
    given: Given,
    places: &P,
    status: Status,
    err: &mut E,
) -> Prepared {
    if !given.keeps() {
        return Prepared::Ended(tell_file(alloc, file, status, err));
    }
    match completed(alloc, file, given, None, places) {
        Ok(setup) => Prepared::Ready(setup),
        Err(fault) => Prepared::Ended(tell_fault(alloc, &fault, err)),
    }
}

// A file that is no TOML is taken for a description, which it is not; where its slip is, is told.
fn setup_of<P: Places, E: Sink>(
    alloc: Global,
    file: &Text,
    mut given: Given,
    bytes: &Octets,
    places: &P,
    err: &mut E,
) -> Result<Setup, SetupFault> {
    let config = match config_in(alloc, bytes.as_slice(), &mut given)? {
        ConfigRead::Config => Some(file),
        ConfigRead::Other => None,
        ConfigRead::NoToml(why) => {
            tell_slip(alloc, file, &why, err)?;
            None
        }
    };
    completed(alloc, file, given, config, places)
}

// Where a file's slip of TOML is.
fn tell_slip<E: Sink>(alloc: Global, file: &Text, why: &Text, err: &mut E) -> Result<(), NoMemory> {
    let (name, why) = (file.as_str(), why.as_str());
    let text = format!(in alloc; "adsd: {name}: {why}\n")?;
    let _ = err.put(text.as_bytes());
    Ok(())
}

// The setup, no two of whose files are one by a slip.
fn completed<P: Places>(
    alloc: Global,
    file: &Text,
    given: Given,
    config: Option<&Text>,
    places: &P,
) -> Result<Setup, SetupFault> {
    let setup = given.setup(alloc, file.as_str())?;
    slips_of(alloc, &setup, config, places)?;
    Ok(setup)
}

// What a configuration says is printed, and its files and its description are checked.
fn check<F: Files, P: Places, S: Sink, E: Sink>(
    alloc: Global,
    file: &Text,
    files: &mut F,
    places: &P,
    out: &mut S,
    err: &mut E,
) -> Status
    ensures held { (F.state files.new).held ≡ (F.state files.old).held }
{
    match files.read(file.as_str()) {
        Got::Bytes(bytes) => match checked_setup(alloc, file, &bytes) {
            Ok(setup) => check_setup(alloc, file, &setup, files, places, out, err),
            Err(fault) => tell_fault(alloc, &fault, err),
        },
        Got::TooLong => tell_file(alloc, file, Status::TooLong, err),
        Got::Failed => tell_file(alloc, file, Status::ReadFault, err),
        Got::Memory => end_without_memory(err),
    }
}

fn checked_setup(alloc: Global, file: &Text, bytes: &Octets) -> Result<Setup, SetupFault> {
    let mut given = Given::new(alloc);
    match config_in(alloc, bytes.as_slice(), &mut given)? {
        ConfigRead::Config => given.setup(alloc, file.as_str()),
        ConfigRead::Other => Err(SetupFault::NotConfig),
        ConfigRead::NoToml(why) => Err(SetupFault::NotToml(why)),
    }
}

fn check_setup<F: Files, P: Places, S: Sink, E: Sink>(
    alloc: Global,
    file: &Text,
    setup: &Setup,
    files: &mut F,
    places: &P,
    out: &mut S,
    err: &mut E,
) -> Status
    ensures held { (F.state files.new).held ≡ (F.state files.old).held }
{
    match print_setup(alloc, setup, out) {
        Status::Done => match check_places(alloc, file, setup, places) {
            Ok(()) => check_description(alloc, setup, files, out),
            Err(fault) => tell_fault(alloc, &fault, err),
        },
        status => status,
    }
}

fn check_places<P: Places>(
    alloc: Global,
    file: &Text,
    setup: &Setup,
    places: &P,
) -> Result<(), SetupFault> {
    slips_of(alloc, setup, Some(file), places)?;
    folders_of(alloc, setup, places)
}

fn print_setup<S: Sink>(alloc: Global, setup: &Setup, out: &mut S) -> Status {
    match setup_text(alloc, setup) {
        Err(NoMemory) => end_without_memory(out),
        Ok(text) => print_and_end(out, text.as_slice(), Status::Done),
    }
}

fn check_description<F: Files, S: Sink>(
    alloc: Global,
    setup: &Setup,
    files: &mut F,
    out: &mut S,
) -> Status
    ensures held { (F.state files.new).held ≡ (F.state files.old).held }
{
    match read_description(alloc, &setup.description, setup.signals.len() as u32, files) {
        Err(NoMemory) => end_without_memory(out),
        Ok(Err(told)) => print_outcome(out, told),
        Ok(Ok(_read)) => Status::Done,
    }
}

// What is wrong is told, and the run ends.
fn tell_fault<E: Sink>(alloc: Global, fault: &SetupFault, err: &mut E) -> Status {
    match fault.sentence(alloc) {
        Ok(text) => print_and_end(err, text.as_slice(), status_of(fault)),
        Err(NoMemory) => end_without_memory(err),
    }
}

fn status_of(fault: &SetupFault) -> Status {
    match fault {
        SetupFault::Memory => Status::Memory,
        SetupFault::NoFile
        | SetupFault::SecondFile(_)
        | SetupFault::UnknownOption(_)
        | SetupFault::NoValue(_)
        | SetupFault::Twice(_)
        | SetupFault::Wrong(_)
        | SetupFault::WrongText(_, _)
        | SetupFault::TooMany(_)
        | SetupFault::NeedsStore(_)
        | SetupFault::WrongSignal(_)
        | SetupFault::UnknownKey(_)
        | SetupFault::NotConfig
        | SetupFault::NotToml(_)
        | SetupFault::OneFile(_, _, _, _)
        | SetupFault::NoPlainFile(_, _)
        | SetupFault::BadFolder(_, _, _) => Status::Usage,
    }
}

fn tell_file<E: Sink>(alloc: Global, file: &Text, status: Status, err: &mut E) -> Status {
    match file_sentence(alloc, file, &status) {
        Ok(text) => print_and_end(err, text.as_slice(), status),
        Err(NoMemory) => end_without_memory(err),
    }
}

fn file_sentence(alloc: Global, file: &Text, status: &Status) -> Result<Octets, NoMemory> {
    let name = file.as_str();
    let text = match status {
        Status::TooLong => format!(in alloc; "adsd: {name} has more than 16777216 bytes\n")?,
        _ => format!(in alloc; "adsd: {name} cannot be read\n")?,
    };
    Octets::copy_of(alloc, text.as_bytes())
}

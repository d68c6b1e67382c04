//! What is wrong with the words or the configuration of a daemon.

ghost use Rattle.std.specs.Prelude.{◌≡◌};
ghost use Rattle.daemon_words.specs.declared.fault.SetupFault.TheVariants.{Memory};

use crate::{Field, FileUse};
use ads_base::{NoMemory, Octets};
use cli_words::Text;
use daemon_outside::Folder;
use std::alloc::Global;

/// What is wrong, the first of it.
#[derive(Debug, Drop)]
pub enum SetupFault {
    /// No file is named.
    NoFile,
    /// A second file is named.
    SecondFile(Text),
    /// A word looks like an option and is none.
    UnknownOption(Text),
    /// An option has no value.
    NoValue(Field),
    /// A field is set twice.
    Twice(Field),
    /// A field is set to something that it does not take.
    Wrong(Field),
    /// A field is set to this text, which it does not take.
    WrongText(Field, Text),
    /// A field is given more often than it may be.
    TooMany(Field),
    /// This is said of a store, and none is named.
    NeedsStore(Field),
    /// The table `[[signal]]` with this number, counted from 0, is off the form.
    WrongSignal(u32),
    /// A key of the configuration that is not known.
    UnknownKey(Text),
    /// The file that is to be checked is no configuration.
    NotConfig,
    /// The file that is to be checked is no TOML, and where and why.
    NotToml(Text),
    /// Two of the daemon's files are one, with their names.
    OneFile(FileUse, Text, FileUse, Text),
    /// A folder, a pipe or a device stands where a file is to be written.
    NoPlainFile(FileUse, Text),
    /// The folder in which a file is to be written does not take it.
    BadFolder(FileUse, Text, Folder),
    /// Memory was wanting.
    Memory,
}

impl From<NoMemory> for SetupFault {
    ghost from_gives = { λ _ fault. fault ≡ Memory };

    fn from(_: NoMemory) -> SetupFault {
        SetupFault::Memory
    }
}

impl SetupFault {
    /// Whether memory was wanting, and nothing is wrong.
    pub fn is_memory(&self) -> bool {
        matches!(self, SetupFault::Memory)
    }

    /// The sentence that tells it, behind the name of the program, as a line.
    pub fn sentence(&self, alloc: Global) -> Result<Octets, NoMemory> {
        match self {
            SetupFault::NoFile => line_of(alloc, &[NO_FILE]),
            SetupFault::SecondFile(word) => line_of(
                alloc,
                &["one file only, but ", word.as_str(), " is a second one"],
            ),
            SetupFault::UnknownOption(word) => line_of(
                alloc,
                &[word.as_str(), " is no option; adsd --help lists them"],
            ),
            SetupFault::NoValue(field) => line_of(
                alloc,
                &["a value is missing: ", field.key(), " ", field.rule()],
            ),
            SetupFault::Twice(field) => line_of(alloc, &[field.key(), " is set twice"]),
            SetupFault::Wrong(field) => line_of(alloc, &[field.key(), " ", field.rule()]),
            SetupFault::WrongText(field, text) => wrong_line(alloc, *field, text),
            SetupFault::TooMany(field) => too_many_line(alloc, *field),
            SetupFault::NeedsStore(field) => line_of(alloc, &[field.key(), NEEDS_STORE]),
            SetupFault::WrongSignal(number) => signal_line(alloc, *number),
            SetupFault::UnknownKey(word) => line_of(
                alloc,
                &[
                    "the configuration has no key ",
                    word.as_str(),
                    "; adsd --help lists them",
                ],
            ),
            SetupFault::NotConfig => line_of(alloc, &[NOT_CONFIG]),
            SetupFault::NotToml(why) => line_of(alloc, &[NOT_TOML, why.as_str()]),
            SetupFault::OneFile(one, name, other, second) => one_file_line(
                alloc, *one, name, *other, second,
            ),
            SetupFault::NoPlainFile(kind, name) => file_line(
                alloc,
                *kind,
                " is to be a file or not there yet, and ",
                name,
                " is a folder, a pipe or a device",
            ),
            SetupFault::BadFolder(kind, name, folder) => file_line(
                alloc,
                *kind,
                " ",
                name,
                folder_words(*folder),
            ),
            SetupFault::Memory => line_of(alloc, &["out of memory"]),
        }
    }
}

const NO_FILE: &str = "name a configuration or a description, as in: adsd /etc/ads/adsd.toml";

const NEEDS_STORE: &str = " needs store, the name of the file that keeps persistent symbols";

const NOT_CONFIG: &str = "this is no configuration: it is no TOML table with the key description";

const NOT_TOML: &str = "this is no configuration: ";

const SIGNAL_FORMS: &str =
    ", counted from 0, takes ramp = STEP with period = TICKS (1 to 1048576), square = [LOW, HIGH, TICKS] (1 to 524288), values = [NUMBER, ..] (1 to 1048576 of them), file = NAME, or recording = FILE with name = SYMBOL";

// Parts of a sentence behind the name of the program, as a line.
fn line_of(alloc: Global, parts: &[&str]) -> Result<Octets, NoMemory> {
    let mut line = begun(alloc)?;
    for part in parts {
        put_shown(alloc, &mut line, part)?;
    }
    ended(alloc, line)
}

fn begun(alloc: Global) -> Result<Octets, NoMemory> {
    Octets::copy_of(alloc, b"adsd: ")
}

fn ended(alloc: Global, line: Octets) -> Result<Octets, NoMemory> {
    let mut line = line;
    line.push(alloc, b'\n')?;
    Ok(line)
}

// A text in a line: what would end it, or is not to be seen, is a question mark.
fn put_shown(alloc: Global, line: &mut Octets, text: &str) -> Result<(), NoMemory> {
    for byte in text.as_bytes() {
        let hidden = *byte < 0x20 || *byte == 0x7f;
        line.push(alloc, if hidden { b'?' } else { *byte })?;
    }
    Ok(())
}

// What is wrong with the folder in which a file is to be written.
fn folder_words(folder: Folder) -> &'static str {
    match folder {
        Folder::Open => ": its folder takes files",
        Folder::Missing => " cannot be written: its folder is not there; make it first",
        Folder::NoFolder => " cannot be written: what stands in front of its last / is no folder",
        Folder::Closed =>
            " cannot be written: this user may make no file in its folder, or its disk is read-only",
    }
}

fn wrong_line(alloc: Global, field: Field, text: &Text) -> Result<Octets, NoMemory> {
    let mut line = begun(alloc)?;
    put_shown(alloc, &mut line, field.key())?;
    put_shown(alloc, &mut line, " ")?;
    put_shown(alloc, &mut line, field.rule())?;
    put_shown(alloc, &mut line, ", not ")?;
    put_shown(alloc, &mut line, text.as_str())?;
    ended(alloc, line)
}

// A file that can't be written, and why.
fn file_line(
    alloc: Global,
    kind: FileUse,
    between: &str,
    name: &Text,
    behind: &str,
) -> Result<Octets, NoMemory> {
    let mut line = begun(alloc)?;
    put_shown(alloc, &mut line, kind.words())?;
    put_shown(alloc, &mut line, between)?;
    put_shown(alloc, &mut line, name.as_str())?;
    put_shown(alloc, &mut line, behind)?;
    ended(alloc, line)
}

fn one_file_line(
    alloc: Global,
    one: FileUse,
    name: &Text,
    other: FileUse,
    second: &Text,
) -> Result<Octets, NoMemory> {
    let mut line = begun(alloc)?;
    put_use(alloc, &mut line, one)?;
    put_shown(alloc, &mut line, " and ")?;
    put_use(alloc, &mut line, other)?;
    put_shown(alloc, &mut line, " are one file, ")?;
    put_shown(alloc, &mut line, name.as_str())?;
    if name.as_str() != second.as_str() {
        put_shown(alloc, &mut line, " or ")?;
        put_shown(alloc, &mut line, second.as_str())?;
    }
    put_shown(alloc, &mut line, ": name another for one of them")?;
    ended(alloc, line)
}

// What a file is to the daemon, with the number of a signal.
fn put_use(alloc: Global, line: &mut Octets, kind: FileUse) -> Result<(), NoMemory> {
    put_shown(alloc, line, kind.words())?;
    match kind {
        FileUse::Signal(number) => {
            let number = format!(in alloc; "{number}")?;
            put_shown(alloc, line, number.as_str())
        }
        _ => Ok(()),
    }
}

fn too_many_line(alloc: Global, field: Field) -> Result<Octets, NoMemory> {
    let most = field.most();
    let count = format!(in alloc; "{most}")?;
    line_of(
        alloc,
        &[
            field.key(),
            " is given more than ",
            count.as_str(),
            " times",
        ],
    )
}

fn signal_line(alloc: Global, number: u32) -> Result<Octets, NoMemory> {
    let number = format!(in alloc; "{number}")?;
    line_of(alloc, &["[[signal]] ", number.as_str(), SIGNAL_FORMS])
}

//! The files that a setup names, looked at before anything is made.

use crate::file_list::{FileNamed, add_file};
use crate::{FileUse, LogForm, Setup, SetupFault, SignalTable};
use ads_base::ListOf;
use cli_words::Text;
use daemon_outside::{Folder, Place, Places};
use std::alloc::Global;

/// Looks whether two of the files that a setup names are one by a slip, or the status file's name is that of a folder, a pipe or
/// a device. `config` is the configuration's file, if there is one.
pub fn slips_of<P: Places>(
    alloc: Global,
    setup: &Setup,
    config: Option<&Text>,
    places: &P,
) -> Result<(), SetupFault> {
    let mut list = ListOf::new(alloc);
    put(
        alloc,
        &mut list,
        FileUse::Description,
        &setup.description,
        places,
    )?;
    if let Some(config) = config {
        put(alloc, &mut list, FileUse::Configuration, config, places)?;
    }
    put_maybe(alloc, &mut list, FileUse::Store, &setup.store, places)?;
    put_kept(alloc, &mut list, setup, places)?;
    put_maybe(alloc, &mut list, FileUse::Status, &setup.status, places)?;
    put_maybe(
        alloc,
        &mut list,
        FileUse::StopFile,
        &setup.stop_file,
        places,
    )?;
    put_error(alloc, &mut list, setup.log, places)?;
    put_signals(alloc, &mut list, setup.signals.as_slice(), places)?;
    is_file_or_nothing(alloc, &setup.status, places)
}

/// Looks whether this user may make files in the folders of the store and of the status file.
pub fn folders_of<P: Places>(alloc: Global, setup: &Setup, places: &P) -> Result<(), SetupFault> {
    is_open(alloc, FileUse::Store, &setup.store, places)?;
    is_open(alloc, FileUse::Status, &setup.status, places)
}

fn put<P: Places>(
    alloc: Global,
    list: &mut ListOf<FileNamed>,
    kind: FileUse,
    name: &Text,
    places: &P,
) -> Result<(), SetupFault> {
    let place = places.place_of(alloc, name.as_str())?;
    let name = Text::copy_of(alloc, name.as_str())?;
    add_file(alloc, list, FileNamed { kind, name, place })
}

fn put_maybe<P: Places>(
    alloc: Global,
    list: &mut ListOf<FileNamed>,
    kind: FileUse,
    name: &Option<Text>,
    places: &P,
) -> Result<(), SetupFault> {
    match name {
        Some(name) => put(alloc, list, kind, name, places),
        None => Ok(()),
    }
}

// The file beside the store in which accepted descriptions are kept, if they are.
fn put_kept<P: Places>(
    alloc: Global,
    list: &mut ListOf<FileNamed>,
    setup: &Setup,
    places: &P,
) -> Result<(), SetupFault> {
    match setup.kept_name(alloc)? {
        Some(name) => put(alloc, list, FileUse::KeptDescription, &name, places),
        None => Ok(()),
    }
}

// Where the log goes.
fn put_error<P: Places>(
    alloc: Global,
    list: &mut ListOf<FileNamed>,
    log: LogForm,
    places: &P,
) -> Result<(), SetupFault> {
    if log == LogForm::Nothing {
        return Ok(());
    }
    match places.error_place() {
        Place::File(node) => {
            let name = Text::copy_of(alloc, "/dev/stderr")?;
            let place = Place::File(node);
            let kind = FileUse::ErrorOutput;
            add_file(alloc, list, FileNamed { kind, name, place })
        }
        Place::Other(_) | Place::Free(_, _) | Place::Unknown => Ok(()),
    }
}

// The files and recordings of signals.
fn put_signals<P: Places>(
    alloc: Global,
    list: &mut ListOf<FileNamed>,
    signals: &[SignalTable],
    places: &P,
) -> Result<(), SetupFault> {
    let mut number = 0u32;
    for signal in signals {
        if let Some(name) = file_of(signal) {
            put(alloc, list, FileUse::Signal(number), name, places)?;
        }
        number = number.saturating_add(1);
    }
    Ok(())
}

fn file_of(signal: &SignalTable) -> Option<&Text> {
    match signal {
        SignalTable::File(name) => Some(name),
        SignalTable::Recording(recording) => Some(&recording.file),
        SignalTable::Ramp(_) | SignalTable::Square(_) | SignalTable::Values(_) => None,
    }
}

// A status file is a file, or not there yet.
fn is_file_or_nothing<P: Places>(
    alloc: Global,
    name: &Option<Text>,
    places: &P,
) -> Result<(), SetupFault> {
    let Some(name) = name else {
        return Ok(());
    };
    match places.place_of(alloc, name.as_str())? {
        Place::Other(_) => Err(SetupFault::NoPlainFile(FileUse::Status, copy(alloc, name)?)),
        Place::File(_) | Place::Free(_, _) | Place::Unknown => Ok(()),
    }
}

// The folder of this file takes files.
fn is_open<P: Places>(
    alloc: Global,
    kind: FileUse,
    name: &Option<Text>,
    places: &P,
) -> Result<(), SetupFault> {
    let Some(name) = name else {
        return Ok(());
    };
    match places.folder_of(alloc, name.as_str())? {
        Folder::Open => Ok(()),
        folder => Err(SetupFault::BadFolder(kind, copy(alloc, name)?, folder)),
    }
}

fn copy(alloc: Global, name: &Text) -> Result<Text, SetupFault> {
    Ok(Text::copy_of(alloc, name.as_str())?)
}

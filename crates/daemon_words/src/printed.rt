//! A setup, printed.

use crate::printed_signal::signal_text;
use crate::{IpNet, OthersWord, Setup, SignalTable};
use ads_base::{NoMemory, Octets};
use cli_words::Text;
use std::alloc::Global;

/// What a daemon with this setup does, a line a field.
pub fn setup_text(alloc: Global, setup: &Setup) -> Result<Octets, NoMemory> {
    let mut text = Octets::new(alloc);
    put_line(alloc, &mut text, "description", setup.description.as_str())?;
    put_line(alloc, &mut text, "listen", setup.listen.as_str())?;
    put_nets(alloc, &mut text, setup.allow.as_slice())?;
    put_line(
        alloc,
        &mut text,
        "other_routes",
        others_sentence(setup.others),
    )?;
    put_line(alloc, &mut text, "profile", setup.profile.word())?;
    put_store(alloc, &mut text, setup)?;
    put_description(alloc, &mut text, setup)?;
    put_signals(alloc, &mut text, setup.signals.as_slice())?;
    put_maybe(alloc, &mut text, "status", &setup.status, "none")?;
    put_line(alloc, &mut text, "log", setup.log.word())?;
    put_maybe(alloc, &mut text, "stop_file", &setup.stop_file, "none")?;
    Ok(text)
}

const NO_SETTLE: &str =
    "0: a changed description is taken as it is found, so write a new file beside it and rename it into place";

fn put_line(alloc: Global, text: &mut Octets, key: &str, value: &str) -> Result<(), NoMemory> {
    let line = format!(in alloc; "{key} {value}\n")?;
    text.put(alloc, line.as_bytes())
}

fn put_maybe(
    alloc: Global,
    text: &mut Octets,
    key: &str,
    value: &Option<Text>,
    other: &str,
) -> Result<(), NoMemory> {
    match value {
        Some(value) => put_line(alloc, text, key, value.as_str()),
        None => put_line(alloc, text, key, other),
    }
}

// Who may connect, a line a net.
fn put_nets(alloc: Global, text: &mut Octets, nets: &[IpNet]) -> Result<(), NoMemory> {
    if nets.is_empty() {
        return put_line(alloc, text, "allow", "everybody");
    }
    for net in nets {
        let (address, bits) = (net.address, net.bits);
        let line = format!(in alloc; "allow {address}/{bits}\n")?;
        text.put(alloc, line.as_bytes())?;
    }
    Ok(())
}

// What machines without a route may do.
fn others_sentence(others: Option<OthersWord>) -> &'static str {
    match others {
        Some(word) => word.sentence(),
        None => "none: only machines with a route may connect",
    }
}

// Where and how often is saved.
fn put_store(alloc: Global, text: &mut Octets, setup: &Setup) -> Result<(), NoMemory> {
    match &setup.store {
        Some(name) => {
            put_line(alloc, text, "store", name.as_str())?;
            let seconds = setup.save_each;
            let line = format!(in alloc; "save_each {seconds}\n")?;
            text.put(alloc, line.as_bytes())?;
            put_line(
                alloc,
                text,
                "store_damaged",
                damaged_words(setup.begins_damaged),
            )
        }
        None => put_line(alloc, text, "store", "none"),
    }
}

// What becomes of a damaged store.
fn damaged_words(begins: bool) -> &'static str {
    if begins {
        "begin: it is copied, and served without what it lost"
    } else {
        "none: it ends the daemon"
    }
}

// What becomes of changed and of refused descriptions.
fn put_description(alloc: Global, text: &mut Octets, setup: &Setup) -> Result<(), NoMemory> {
    match setup.kept_name(alloc)? {
        Some(name) => put_line(alloc, text, "keep_description true:", name.as_str())?,
        None => put_line(alloc, text, "keep_description", "false")?,
    }
    let seconds = setup.settle;
    if seconds == 0 {
        return put_line(alloc, text, "settle", NO_SETTLE);
    }
    let line = format!(in alloc; "settle {seconds}\n")?;
    text.put(alloc, line.as_bytes())
}

// The signals with their numbers, a line each.
fn put_signals(alloc: Global, text: &mut Octets, signals: &[SignalTable]) -> Result<(), NoMemory> {
    let mut number = 0u32;
    for signal in signals {
        let line = signal_text(alloc, number, signal)?;
        text.put(alloc, line.as_slice())?;
        number = number.saturating_add(1);
    }
    Ok(())
}

//! The lines that a log tells of descriptions and of the store.

use crate::posted::Reloaded;
use crate::rules::rule_text;
use std::alloc::{AllocError, Global};
use std::io;

/// The description that was to be served breaks this rule, and in it this item; rule 0 for no TOML document.
pub(crate) fn refused_line(alloc: Global, rule: u8, item: u32) -> Result<String, AllocError> {
    let words = rule_text(rule);
    format!(in alloc; "description refused: rule {rule} item {item}: {words}")
}

/// What became of a changed description.
pub(crate) fn reload_line(alloc: Global, reload: Reloaded) -> Result<String, AllocError> {
    match reload {
        Reloaded::Accepted(version) => format!(in alloc; "reload accepted: version {version}"),
        Reloaded::Syntax => format!(in alloc;
            "reload refused: it is no TOML document; the description before stays"
        ),
        Reloaded::Breaks(rule, item) => {
            let words = rule_text(rule);
            format!(in alloc;
                "reload refused: rule {rule} item {item}: {words}; the description before stays"
            )
        }
    }
}

/// What is told where the description's file can't be read any more.
pub(crate) const UNREADABLE: &str =
    "description: cannot be read (gone, no right to it, over 16777216 bytes, or out of memory); the one before stays";

/// What is told where it can be read again.
pub(crate) const READABLE: &str = "description: can be read again";

/// What is told while the description that was kept is served.
pub(crate) fn kept_line(
    alloc: Global,
    kept: &str,
    rule: Option<(u8, u32)>,
) -> Result<String, AllocError> {
    match rule {
        Some((rule, item)) => {
            let words = rule_text(rule);
            format!(in alloc;
                "description refused: rule {rule} item {item}: {words}; the last one that was accepted is served, {kept}"
            )
        }
        None => format!(in alloc;
            "description: cannot be read; the last one that was accepted is served, {kept}"
        ),
    }
}

/// That an accepted description could not be kept, and why.
pub(crate) fn unkept_line(alloc: Global, error: &io::Error) -> Result<String, AllocError> {
    format!(in alloc; "description: cannot be kept beside the store: {error}")
}

/// The status file could not be written, and why.
pub(crate) fn status_line(alloc: Global, error: &io::Error) -> Result<String, AllocError> {
    format!(in alloc; "status: the status file cannot be written: {error}")
}

/// What is told where the status file is written again.
pub(crate) const STATUS_WELL: &str = "status: the status file is written again";

/// What is told where nobody can be accepted for want of a descriptor.
pub(crate) const NO_DESCRIPTOR: &str =
    "no descriptor is left for a new connection: raise the limit";

/// The store was opened.
pub(crate) fn store_line(
    alloc: Global,
    name: &str,
    entries: u64,
    bytes: u64,
) -> Result<String, AllocError> {
    format!(in alloc; "store opened: {name}, {entries} entries, {bytes} bytes")
}

/// The save with this number since the start was done, in a time of 100 ns each.
pub(crate) fn saved_line(
    alloc: Global,
    number: u64,
    bytes: u64,
    time: u64,
) -> Result<String, AllocError> {
    let milliseconds = time / 10_000;
    format!(in alloc; "saved {number}, {bytes} bytes, {milliseconds} ms")
}

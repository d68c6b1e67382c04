//! The lines that a store's file tells the log.

use ads_base::Octets;
use daemon_log::{Level, Noticeboard};
use std::alloc::{AllocError, Global};
use std::str;

/// How many entries are named.
const NAMED: usize = 16;

/// A copy was made.
pub(crate) fn copied_line(alloc: Global, name: &str, entries: u64) -> Result<String, AllocError> {
    format!(in alloc; "store: copied to {name}, {entries} entries")
}

/// Entries of a store that fit no persistent symbol, at a start and at a new description.
pub fn tell_unfit(alloc: Global, board: &Noticeboard, names: &[Octets]) {
    for name in names.iter().take(NAMED) {
        post(board, unfit_line(alloc, name.as_slice()));
    }
    if names.len() > NAMED {
        let more = names.len() - NAMED;
        post(
            board,
            format!(in alloc; "store: {more} more entries fit no persistent symbol"),
        );
    }
}

/// Entries that a save leaves out.
pub(crate) fn tell_left_out(alloc: Global, board: &Noticeboard, names: &[Octets]) {
    for name in names.iter().take(NAMED) {
        post(board, left_out_line(alloc, name.as_slice()));
    }
    if names.len() > NAMED {
        let more = names.len() - NAMED;
        post(
            board,
            format!(in alloc; "store: the save leaves out {more} more"),
        );
    }
}

fn post(board: &Noticeboard, text: Result<String, AllocError>) {
    if let Ok(text) = text {
        board.post_line(Level::Warning, text);
    }
}

fn unfit_line(alloc: Global, name: &[u8]) -> Result<String, AllocError> {
    match printable(name) {
        Some(name) => format!(in alloc;
            "store: no persistent symbol fits the entry {name}, so the next save leaves it out"
        ),
        None => format!(in alloc;
            "store: no persistent symbol fits an entry whose name is no text, so the next save leaves it out"
        ),
    }
}

fn left_out_line(alloc: Global, name: &[u8]) -> Result<String, AllocError> {
    match printable(name) {
        Some(name) => format!(in alloc; "store: the save leaves out {name}"),
        None => format!(in alloc; "store: the save leaves out an entry whose name is no text"),
    }
}

// A name of which each byte may stand in a line: a foreign store may have others.
fn printable(name: &[u8]) -> Option<&str> {
    if name.iter().all(|byte| byte.is_ascii_graphic()) {
        str::from_utf8(name).ok()
    } else {
        None
    }
}

//! The printed text of a log.

ghost use Rattle.std.specs.Prelude.{◌≡◌, ◌++◌, OnOk, OnErr};
ghost use Rattle.spec_machine.specs.LogText as text;

use crate::texts::{put_counted, put_hex};
use ads_base::{NoMemory, Octets};
use ads_outside::{Event, Log, Move, ReloadNote, ReloadNotes};
use std::alloc::Global;

/// Appends the lines of a log: what connections took, which were lost or shut, and what became
/// of the reloads; the k-th reload has the line of the k-th note.
pub fn log_text(
    alloc: Global,
    log: &Log,
    notes: &ReloadNotes,
    out: &mut Octets,
) -> Result<(), NoMemory>
    ensures ok { OnOk result (out.new ≡ out.old ++ text.log_text_of notes.now log.now) }
    ensures no_memory { OnErr result (out.new ≡ out.old) }
{
    let mut lines = Octets::new(alloc);
    let mut left = notes.as_slice();
    for entry in log.as_slice() {
        put_move(alloc, &mut lines, left, entry)?;
        left = notes_after(left, entry);
    }
    out.put(alloc, lines.as_slice())?;
    Ok(())
}

// The notes of the reloads behind a move.
fn notes_after<'a>(notes: &'a [ReloadNote], entry: &Move) -> &'a [ReloadNote]
    ensures { result.now ≡ text.notes_after notes.now entry.now }
{
    match (entry, notes) {
        (Move::Event(Event::Reload(_)), [_, others @ ..]) => others,
        _ => notes,
    }
}

// The line of a move, if it has one.
fn put_move(
    alloc: Global,
    out: &mut Octets,
    notes: &[ReloadNote],
    entry: &Move,
) -> Result<(), NoMemory>
    ensures { OnOk result (out.new ≡ out.old ++ text.move_text notes.now entry.now) }
{
    match entry {
        Move::Event(event) => put_event(alloc, out, notes, event),
        Move::Took(conn, _, bytes) => put_taken(alloc, out, *conn, bytes.as_slice()),
        Move::Lost(conn) => put_numbered(alloc, out, b"lost ", *conn),
        Move::Shut(conn) => put_numbered(alloc, out, b"shut ", *conn),
    }
}

fn put_event(
    alloc: Global,
    out: &mut Octets,
    notes: &[ReloadNote],
    event: &Event,
) -> Result<(), NoMemory>
    ensures { OnOk result (out.new ≡ out.old ++ text.event_text notes.now event.now) }
{
    let Event::Reload(_) = event else {
        return Ok(());
    };
    match notes {
        [] => Ok(()),
        [note, ..] => put_note(alloc, out, *note),
    }
}

fn put_note(alloc: Global, out: &mut Octets, note: ReloadNote) -> Result<(), NoMemory>
    ensures { OnOk result (out.new ≡ out.old ++ text.note_text note) }
{
    match note {
        ReloadNote::Ok(version) => put_numbered(alloc, out, b"reload ok ", u32::from(version)),
        ReloadNote::Refused(rule) => put_numbered(alloc, out, b"reload refused ", u32::from(rule)),
    }
}

fn put_taken(alloc: Global, out: &mut Octets, conn: u32, bytes: &[u8]) -> Result<(), NoMemory>
    ensures { OnOk result (out.new ≡ out.old ++ text.out_text conn bytes.now) }
{
    if bytes.is_empty() {
        return Ok(());
    }
    put_counted(alloc, out, b"out ", u64::from(conn))?;
    out.push(alloc, b' ')?;
    put_hex(alloc, out, bytes)?;
    out.push(alloc, b'\n')?;
    Ok(())
}

fn put_numbered(alloc: Global, out: &mut Octets, word: &[u8], number: u32) -> Result<(), NoMemory>
    ensures { OnOk result (out.new ≡ out.old ++ text.end_text word.now number) }
{
    put_counted(alloc, out, word, u64::from(number))?;
    out.push(alloc, b'\n')?;
    Ok(())
}

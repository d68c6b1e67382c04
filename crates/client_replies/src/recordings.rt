//! What a recording does behind an entry, a notification, a sample and an end, and how it begins.

ghost use Rattle.std.specs.Prelude.{◌≡◌, ◌==◌, ◌≤◌, ◌<◌, ◌+◌, ◌^◌, ◌∷◌, [], map, option_map, IfOk, IfSome};
ghost use Rattle.std.specs.List.{list_all, list_any};
ghost use Rattle.sample_store.specs.Views.{row_kept};
ghost use Rattle.spec_client.specs.Calls.{addition_request as addition_request_of};
ghost use Rattle.spec_client.specs.Recordings as recordings;
ghost use Rattle.spec_client.specs.Stages as stages;
ghost use Rattle.client_replies.specs.Kept.{entry_kept, request_kept};
ghost use Rattle.client_replies.specs.Rows.{HasRowNumbers};
ghost use Rattle.client_replies.specs.RecordParts.{IsNextLeft, name_of_handle, row_due, behind_row as behind_row_of, with_entry, with_one_kept};
ghost use Rattle.client_replies.specs.Stages.{end_meant, output_kept, progress_kept, recorded_kept, recording_kept, wait_kept, watching_kept};

use crate::asking::{addition_request, entry_request};
use crate::own_entry::OwnEntry;
use crate::recording::{RecordWait, Recorded, Recording};
use crate::stage::{Asked, CallEnd, Output, Progress, Stage};
use crate::watching::Watching;
use ads_base::{ListOf, NoMemory, Octets};
use sample_store::Row;
use std::alloc::Global;
use std::collections::VecDeque;

/// A recording begins: of these names, with the rows from a first number on.
pub fn recording_begun(
    alloc: Global,
    names: &[Octets],
    watching: Watching,
    first: u64,
) -> Result<Progress, NoMemory>
    ensures { IfOk result (λ p. progress_kept p
        ≡ recordings.recording_begun names.now (watching_kept watching) first) }
{
    let names = copies(alloc, names)?;
    let r = Recording {
        watching,
        first,
        names,
        entries: ListOf::new(alloc),
        notifications: ListOf::new(alloc),
        ended: ListOf::new(alloc),
        kept: 0,
    };
    with_next_name(alloc, r)
}

fn copies(alloc: Global, texts: &[Octets]) -> Result<VecDeque<Octets>, NoMemory>
    ensures { IfOk result (λ all. all.items ≡ texts.now) }
{
    let mut all = VecDeque::new(alloc);
    for text in texts {
        let copy = Octets::copy_of(alloc, text.as_slice())?;
        all.push_back(copy)?;
    }
    Ok(all)
}

/// The recording ends.
#[tactic(auto, using(crate::proofs::Outputs::outputs))]
pub(crate) fn recording_ended(end: CallEnd, r: Recording, outputs: ListOf<Output>) -> Progress
    ensures { progress_kept result
        ≡ recordings.with_outputs (map output_kept outputs) (stages.recording_ended (end_meant end) (recording_kept r)) }
{
    Progress {
        stage: Stage::FinishedRecording(end, r.entries),
        outputs,
    }
}

// The recording waits, behind what is given.
#[tactic(auto, using(crate::proofs::Outputs::outputs))]
pub(crate) fn waiting(wait: RecordWait, r: Recording, outputs: ListOf<Output>) -> Progress
    ensures { progress_kept result
        ≡ recordings.with_outputs (map output_kept outputs) (stages.progress (stages.Records (wait_kept wait) (recording_kept r)) []) }
{
    Progress {
        stage: Stage::Records(wait, r),
        outputs,
    }
}

// A request is sent behind what is given.
#[tactic(auto, using(crate::proofs::Outputs::outputs))]
fn asking(
    alloc: Global,
    wait: RecordWait,
    r: Recording,
    outputs: ListOf<Output>,
    asked: Asked,
) -> Result<Progress, NoMemory>
    ensures { IfOk result (λ p. progress_kept p
        ≡ recordings.with_outputs (map output_kept outputs)
        (stages.progress (stages.Records (wait_kept wait) (recording_kept r)) (stages.ToSend (request_kept asked) ∷ []))) }
{
    let mut all = outputs;
    all.push(alloc, Output::ToSend(asked))?;
    Ok(waiting(wait, r, all))
}

// The notification of a handle has ended.
fn has_ended(r: &Recording, handle: u32) -> bool
    ensures { result ≡ recordings.has_ended (recording_kept r.now) handle }
{
    r.ended.as_slice().iter().any(|h| *h == handle)
}

#[tactic(auto, using(crate::proofs::Mapped::mapped))]
fn all_ended(r: &Recording) -> bool
    ensures { result ≡ list_all (recordings.has_ended (recording_kept r.now)) (recordings.handles_of (recording_kept r.now)) }
{
    have_ended(r, r.notifications.as_slice())
}

fn have_ended(r: &Recording, notifications: &[Recorded]) -> bool
    ensures { result ≡ list_all (λ n. recordings.has_ended (recording_kept r.now) n.handle) notifications.now }
{
    notifications.iter().all(|n| has_ended(r, n.handle))
}

// An answer gave the handle.
#[tactic(auto, using(crate::proofs::Mapped::mapped))]
fn is_recorded(r: &Recording, handle: u32) -> bool
    ensures { result ≡ recordings.is_recorded (recording_kept r.now) handle }
{
    has_handle(r.notifications.as_slice(), handle)
}

fn has_handle(notifications: &[Recorded], handle: u32) -> bool
    ensures { result ≡ list_any (λ n. n.handle == handle) notifications.now }
{
    notifications.iter().any(|n| n.handle == handle)
}

fn handles_of(alloc: Global, notifications: &[Recorded]) -> Result<Vec<u32>, NoMemory>
    ensures { IfOk result (λ handles. handles.items ≡ map (λ (n : stages.Recorded). n.handle) (map recorded_kept notifications.now)) }
{
    let mut handles = Vec::new(alloc);
    for n in notifications {
        handles.push(n.handle)?;
    }
    Ok(handles)
}

// The first of these handles that has not ended, which is taken out with those before it.
#[tactic(auto, unfolding(spec_client::specs::Recordings::after_deletion))]
fn next_left(r: &Recording, left: &mut VecDeque<u32>) -> Option<u32>
    ensures { IsNextLeft (recording_kept r.now) left.old.items result left.new.items }
{
    'left: loop {
        match left.pop_front() {
            None => return None,
            Some(handle) => {
                if !has_ended(r, handle) {
                    return Some(handle);
                }
            }
        }
    }
}

// The first of these handles that has not ended is deleted.
pub(crate) fn after_deletion(
    alloc: Global,
    left: VecDeque<u32>,
    r: Recording,
    outputs: ListOf<Output>,
) -> Result<Progress, NoMemory>
    ensures { IfOk result (λ p. progress_kept p
        ≡ recordings.with_outputs (map output_kept outputs) (recordings.after_deletion left.items (recording_kept r))) }
{
    let mut left = left;
    match next_left(&r, &mut left) {
        None => Ok(recording_ended(CallEnd::Done, r, outputs)),
        Some(handle) => asking(
            alloc,
            RecordWait::ForDeletion(left),
            r,
            outputs,
            Asked::Delete { handle },
        ),
    }
}

// With enough samples the notifications are deleted; where all have ended it is done.
pub(crate) fn after_samples(
    alloc: Global,
    r: Recording,
    outputs: ListOf<Output>,
) -> Result<Progress, NoMemory>
    ensures { IfOk result (λ p. progress_kept p
        ≡ recordings.with_outputs (map output_kept outputs) (recordings.after_samples (recording_kept r))) }
{
    if r.kept >= r.watching.count {
        let handles = handles_of(alloc, r.notifications.as_slice())?;
        return after_deletion(alloc, VecDeque::from_vec(handles), r, outputs);
    }
    if all_ended(&r) {
        return Ok(recording_ended(CallEnd::Done, r, outputs));
    }
    Ok(waiting(RecordWait::ForSamples, r, outputs))
}

// The next name's entry is asked for; behind the last name samples are waited for.
pub(crate) fn with_next_name(alloc: Global, r: Recording) -> Result<Progress, NoMemory>
    ensures { IfOk result (λ p. progress_kept p
        ≡ recordings.with_next_name (recording_kept r) r.names.items) }
{
    let mut r = r;
    let outputs = ListOf::new(alloc);
    match r.names.pop_front() {
        None => after_samples(alloc, r, outputs),
        Some(name) => {
            let asked = entry_request(alloc, name.as_slice())?;
            asking(alloc, RecordWait::ForEntry, r, outputs, asked)
        }
    }
}

/// An entry came: its notification is added.
pub(crate) fn after_entry(
    alloc: Global,
    r: Recording,
    entry: OwnEntry,
) -> Result<Progress, NoMemory>
    ensures { IfOk result (λ p. progress_kept p
        ≡ stages.progress (stages.Records (stages.ForNotification entry.name) (with_entry (recording_kept r) (entry_kept entry)))
        (stages.ToSend (addition_request_of (entry_kept entry) (watching_kept r.watching)) ∷ [])) }
{
    let mut r = r;
    let asked = addition_request(&entry, r.watching);
    let name = Octets::copy_of(alloc, entry.name.as_slice())?;
    r.entries.push(alloc, entry)?;
    asking(
        alloc,
        RecordWait::ForNotification(name),
        r,
        ListOf::new(alloc),
        asked,
    )
}

/// A handle came: one that an earlier answer gave is that notification.
pub(crate) fn after_notification(
    alloc: Global,
    r: Recording,
    handle: u32,
    name: Octets,
) -> Result<Progress, NoMemory>
    ensures { IfOk result (λ p. progress_kept p
        ≡ recordings.after_notification (recording_kept r) handle name) }
{
    let r = with_notification(alloc, r, handle, name)?;
    with_next_name(alloc, r)
}

// A notification more; none where the handle is that of an earlier one.
#[tactic(auto, using(crate::proofs::Outputs::outputs))]
fn with_notification(
    alloc: Global,
    r: Recording,
    handle: u32,
    name: Octets,
) -> Result<Recording, NoMemory>
    ensures { IfOk result (λ new. recording_kept new ≡ recordings.with_notification (recording_kept r) handle name) }
{
    if is_recorded(&r, handle) {
        return Ok(r);
    }
    let mut r = r;
    r.notifications.push(alloc, Recorded { handle, name })?;
    Ok(r)
}

// What it goes on with.
fn gone_on(
    alloc: Global,
    wait: RecordWait,
    r: Recording,
    outputs: ListOf<Output>,
) -> Result<Progress, NoMemory>
    ensures { IfOk result (λ p. progress_kept p
        ≡ recordings.with_outputs (map output_kept outputs) (recordings.gone_on (wait_kept wait) (recording_kept r))) }
{
    match wait {
        RecordWait::ForSamples => after_samples(alloc, r, outputs),
        other => Ok(waiting(other, r, outputs)),
    }
}

// The name of the notification of a handle.
fn name_at(notifications: &[Recorded], handle: u32) -> Option<&[u8]>
    ensures { option_map (λ name. name.now) result ≡ name_of_handle handle (map recorded_kept notifications.now) }
{
    for n in notifications {
        if n.handle == handle {
            return Some(n.name.as_slice());
        }
    }
    None
}

// The row of a sample; none where the handle is another's, or enough are kept.
fn row_of(
    alloc: Global,
    r: &Recording,
    handle: u32,
    time: u64,
    bytes: &[u8],
) -> Result<Option<Row>, NoMemory>
    requires { r.now.first + r.now.watching.count ≤ 2 ^ 63 }
    ensures row { IfOk result (λ row. option_map row_kept row ≡ row_due (recording_kept r.now) handle time bytes.now) }
    ensures fewer { IfOk result (λ row. IfSome row (λ _. r.now.kept < r.now.watching.count)) }
{
    if r.kept >= r.watching.count {
        return Ok(None);
    }
    match name_at(r.notifications.as_slice(), handle) {
        None => Ok(None),
        Some(name) => {
            let name = Octets::copy_of(alloc, name)?;
            let bytes = Octets::copy_of(alloc, bytes)?;
            Ok(Some(Row {
                number: r.first + r.kept as u64,
                name,
                time,
                bytes,
            }))
        }
    }
}

// A row is given to be kept.
fn with_row(alloc: Global, wait: RecordWait, r: Recording, row: Row) -> Result<Progress, NoMemory>
    requires { r.kept < r.watching.count }
    ensures { IfOk result (λ p. progress_kept p
        ≡ recordings.with_outputs (stages.ToKeep (row_kept row) ∷ [])
        (recordings.gone_on (wait_kept wait) (with_one_kept (recording_kept r)))) }
{
    let mut r = r;
    let mut outputs = ListOf::new(alloc);
    outputs.push(alloc, Output::ToKeep(row))?;
    r.kept += 1;
    gone_on(alloc, wait, r, outputs)
}

/// A sample of one of its notifications is kept, while there are not enough.
pub(crate) fn after_record_sample(
    alloc: Global,
    wait: RecordWait,
    r: Recording,
    handle: u32,
    time: u64,
    bytes: &[u8],
) -> Result<Progress, NoMemory>
    requires { HasRowNumbers (recording_kept r) }
    ensures { IfOk result (λ p. progress_kept p
        ≡ recordings.after_record_sample (wait_kept wait) (recording_kept r) time bytes.now
        (recordings.recorded_at (recording_kept r) handle)) }
{
    let row = row_of(alloc, &r, handle, time, bytes)?;
    behind_row(alloc, wait, r, row)
}

fn behind_row(
    alloc: Global,
    wait: RecordWait,
    r: Recording,
    row: Option<Row>,
) -> Result<Progress, NoMemory>
    requires { IfSome row (λ _. r.kept < r.watching.count) }
    ensures { IfOk result (λ p. progress_kept p
        ≡ behind_row_of (wait_kept wait) (recording_kept r) (option_map row_kept row)) }
{
    match row {
        None => Ok(waiting(wait, r, ListOf::new(alloc))),
        Some(row) => with_row(alloc, wait, r, row),
    }
}

/// A notification ended: the recording goes on without it.
pub(crate) fn after_record_end(
    alloc: Global,
    wait: RecordWait,
    r: Recording,
    handle: u32,
) -> Result<Progress, NoMemory>
    ensures { IfOk result (λ p. progress_kept p
        ≡ recordings.after_record_end (wait_kept wait) (recording_kept r) handle) }
{
    if !is_recorded(&r, handle) {
        return Ok(waiting(wait, r, ListOf::new(alloc)));
    }
    let r = with_end(alloc, r, handle)?;
    gone_on(alloc, wait, r, ListOf::new(alloc))
}

// The notification of a handle has ended.
fn with_end(alloc: Global, r: Recording, handle: u32) -> Result<Recording, NoMemory>
    ensures { IfOk result (λ new. recording_kept new ≡ recordings.with_end (recording_kept r) handle) }
{
    let mut r = r;
    if !has_ended(&r, handle) {
        r.ended.push(alloc, handle)?;
    }
    Ok(r)
}

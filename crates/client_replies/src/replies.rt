//! What the answer to a call's request leads to.

ghost use Rattle.std.specs.Prelude.{◌≡◌, ◌≤◌, ◌∷◌, [], ℕ, List, false, IfOk};
ghost use Rattle.spec_formats.specs.Reply.{reply_of, result_of};
ghost use Rattle.ads_commands.specs.Reply.{reply_meant};
ghost use Rattle.spec_client.specs.Calls.{release_request};
ghost use Rattle.spec_client.specs.Printed.{ok_line};
ghost use Rattle.spec_client.specs.Replies as replies;
ghost use Rattle.spec_client.specs.Stages as stages;
ghost use Rattle.spec_client.specs.Entries.{one_entry_in, entries_in};
ghost use Rattle.spec_client.specs.ValueReading.{value_of_text};
ghost use Rattle.client_replies.specs.Kept.{entry_kept};
ghost use Rattle.client_replies.specs.Stages.{stage_kept, purpose_kept, progress_kept};
ghost use Rattle.client_replies.specs.Parts.{told, is_recording};

use crate::asking::{
    addition_request, handle_request, release_request, type_info_request, upload_request,
    value_request, write_request,
};
use crate::entries::{entry_lines, one_entry};
use crate::own_entry::OwnEntry;
use crate::printed::{facts_line, ok_line, state_line, value_line};
use crate::progress::{done_with, ended, sending, stay};
use crate::record_answers::record_answered;
use crate::showing::{after_leaves, after_type_info, after_types};
use crate::stage::{CallEnd, Progress, Purpose, Stage};
use crate::values::read_value;
use ads_base::{NoMemory, Octets, Peer, get32};
use ads_commands::{Reply, read_reply};
use std::alloc::Global;

/// What an answer leads to: its AMS error, its command, and its bytes behind the AMS header.
pub fn after_answer(
    alloc: Global,
    stage: Stage,
    error: u32,
    command: u16,
    payload: Octets,
) -> Result<Progress, NoMemory>
    ensures { IfOk result (λ p. progress_kept p
        ≡ replies.after_answer (stage_kept stage) error (reply_of command payload) payload) }
{
    match stage {
        Stage::Records(wait, r) => record_answered(alloc, wait, r, error, command, payload),
        other => after_other(alloc, other, error, command, payload),
    }
}

// What an answer leads to in a call that is no recording.
#[tactic(auto, using(crate::proofs::Apart::ends_apart), unfolding(spec_client::specs::Replies::after_answer))]
fn after_other(
    alloc: Global,
    stage: Stage,
    error: u32,
    command: u16,
    payload: Octets,
) -> Result<Progress, NoMemory>
    requires { is_recording (stage_kept stage) ≡ false }
    ensures { IfOk result (λ p. progress_kept p
        ≡ replies.after_answer (stage_kept stage) error (reply_of command payload) payload) }
{
    if error != 0 {
        return Ok(ended(alloc, CallEnd::Refused(error)));
    }
    match after_payload(alloc, stage, command, payload.as_slice())? {
        Some(progress) => Ok(progress),
        None => Ok(ended(alloc, CallEnd::BadPeer(Peer::Text(payload)))),
    }
}

// Nothing where the payload is not what was asked for.
#[tactic(auto, using(crate::proofs::Apart::ends_apart))]
fn after_payload(
    alloc: Global,
    stage: Stage,
    command: u16,
    payload: &[u8],
) -> Result<Option<Progress>, NoMemory>
    requires { is_recording (stage_kept stage) ≡ false }
    ensures { IfOk result (λ found. told found payload.now
        ≡ replies.after_reply_read (stage_kept stage) (reply_of command payload.now) payload.now) }
{
    let Some(reply) = read_reply(command, payload) else {
        return Ok(None);
    };
    let code = result_in(&reply);
    if code != 0 {
        return Ok(Some(ended(alloc, CallEnd::Refused(code))));
    }
    after_reply(alloc, stage, &reply)
}

pub(crate) fn result_in(r: &Reply<'_>) -> u32
    ensures { result ≡ result_of (reply_meant r.now) }
{
    match *r {
        Reply::Info(number, _) | Reply::Read(number, _) | Reply::ReadWrite(number, _) => number,
        Reply::State(number, _, _) | Reply::Add(number, _) => number,
        Reply::Write(number) | Reply::Control(number) | Reply::Delete(number) => number,
    }
}

// The bytes that a reply gives, where it gives bytes.
pub(crate) fn bytes_given<'a>(r: &Reply<'a>) -> &'a [u8]
    ensures { result.now ≡ replies.bytes_given (reply_meant r.now) }
{
    match *r {
        Reply::Read(_, bytes) | Reply::ReadWrite(_, bytes) => bytes,
        _ => &[],
    }
}

pub(crate) fn handle_given(r: &Reply<'_>) -> u32
    ensures { result ≡ replies.handle_given (reply_meant r.now) }
{
    match *r {
        Reply::Add(_, handle) => handle,
        _ => 0,
    }
}

// What a reply with the result 0 leads to.
#[tactic(auto, unfolding(spec_client::specs::Replies::after_reply))]
fn after_reply(alloc: Global, stage: Stage, reply: &Reply<'_>) -> Result<Option<Progress>, NoMemory>
    requires { is_recording (stage_kept stage) ≡ false }
    ensures { IfOk result (λ found. (payload : List ℕ) → told found payload
        ≡ replies.after_reply (stage_kept stage) (reply_meant reply.now) payload) }
{
    match stage {
        Stage::AwaitsFacts => after_facts(alloc, reply),
        Stage::AwaitsState => after_state(alloc, reply),
        Stage::AwaitsOk => after_ok(alloc),
        Stage::AwaitsDeletion => Ok(Some(ended(alloc, CallEnd::Done))),
        Stage::AwaitsEntry(purpose, name) => {
            after_entry_answer(alloc, purpose, name, bytes_given(reply))
        }
        Stage::AwaitsValue(entry) => after_value(alloc, &entry, bytes_given(reply)),
        Stage::AwaitsHandle(value) => after_handle(alloc, value, bytes_given(reply)),
        Stage::AwaitsWrite(handle) => after_write(alloc, handle),
        Stage::AwaitsUploadInfo => after_upload_info(alloc, bytes_given(reply)),
        Stage::AwaitsUpload(count) => after_upload(alloc, count, bytes_given(reply)),
        Stage::AwaitsNotification(entry, watching) => {
            let watches = Stage::Watches(entry, handle_given(reply), watching.count);
            Ok(Some(stay(alloc, watches)))
        }
        Stage::Watches(entry, handle, left) => {
            Ok(Some(stay(alloc, Stage::Watches(entry, handle, left))))
        }
        Stage::AwaitsTypeInfo(name, entry) => {
            after_type_info(alloc, name, entry, bytes_given(reply))
        }
        Stage::AwaitsTypes(name, entry, count) => {
            after_types(alloc, name, &entry, count, bytes_given(reply))
        }
        Stage::AwaitsLeaves(size, leaves) => {
            after_leaves(alloc, size, leaves.as_slice(), bytes_given(reply))
        }
        Stage::Records(wait, r) => Ok(Some(stay(alloc, Stage::Records(wait, r)))),
        Stage::Finished(end) => Ok(Some(stay(alloc, Stage::Finished(end)))),
        Stage::FinishedRecording(end, entries) => {
            Ok(Some(stay(alloc, Stage::FinishedRecording(end, entries))))
        }
    }
}

fn after_facts(alloc: Global, reply: &Reply<'_>) -> Result<Option<Progress>, NoMemory>
    ensures { IfOk result (λ found. (payload : List ℕ) → told found payload
        ≡ stages.done_with (stages.ToPrint (replies.facts_given (reply_meant reply.now)) ∷ [])) }
{
    let text = match reply {
        Reply::Info(_, facts) => facts_line(alloc, facts)?,
        _ => Octets::new(alloc),
    };
    let progress = done_with(alloc, text)?;
    Ok(Some(progress))
}

fn after_state(alloc: Global, reply: &Reply<'_>) -> Result<Option<Progress>, NoMemory>
    ensures { IfOk result (λ found. (payload : List ℕ) → told found payload
        ≡ stages.done_with (stages.ToPrint (replies.state_given (reply_meant reply.now)) ∷ [])) }
{
    let text = match reply {
        Reply::State(_, ads, device) => state_line(alloc, *ads, *device)?,
        _ => Octets::new(alloc),
    };
    let progress = done_with(alloc, text)?;
    Ok(Some(progress))
}

fn after_ok(alloc: Global) -> Result<Option<Progress>, NoMemory>
    ensures { IfOk result (λ found. (payload : List ℕ) → told found payload
        ≡ stages.done_with (stages.ToPrint ok_line ∷ [])) }
{
    let line = ok_line(alloc)?;
    let progress = done_with(alloc, line)?;
    Ok(Some(progress))
}

fn after_entry_answer(
    alloc: Global,
    purpose: Purpose,
    name: Octets,
    bytes: &[u8],
) -> Result<Option<Progress>, NoMemory>
    ensures { IfOk result (λ found. (payload : List ℕ) → told found payload
        ≡ replies.after_entry_read (purpose_kept purpose) name (one_entry_in bytes.now) payload) }
{
    match one_entry(alloc, bytes)? {
        None => Ok(None),
        Some(entry) => {
            let progress = after_entry(alloc, purpose, name, entry)?;
            Ok(Some(progress))
        }
    }
}

fn after_entry(
    alloc: Global,
    purpose: Purpose,
    name: Octets,
    entry: OwnEntry,
) -> Result<Progress, NoMemory>
    requires { entry.size ≤ 1048576 }
    ensures { IfOk result (λ p. progress_kept p
        ≡ replies.after_entry (purpose_kept purpose) name (entry_kept entry)) }
{
    match purpose {
        Purpose::ToGet => {
            let asked = value_request(name, entry.size);
            sending(alloc, Stage::AwaitsValue(entry), asked)
        }
        Purpose::ToSet(text) => after_set(alloc, name, &entry, text.as_slice()),
        Purpose::ToWatch(watching) => {
            let asked = addition_request(&entry, watching);
            sending(alloc, Stage::AwaitsNotification(entry, watching), asked)
        }
        Purpose::ToShow => sending(
            alloc,
            Stage::AwaitsTypeInfo(name, entry),
            type_info_request(),
        ),
    }
}

// The value that the text is read as is written by a handle.
fn after_set(
    alloc: Global,
    name: Octets,
    entry: &OwnEntry,
    text: &[u8],
) -> Result<Progress, NoMemory>
    requires { entry.now.size ≤ 1048576 }
    ensures { IfOk result (λ p. progress_kept p
        ≡ replies.after_value_read name (value_of_text entry.now.type_id entry.now.size text.now)) }
{
    match read_value(alloc, entry.type_id, entry.size, text)? {
        None => Ok(ended(alloc, CallEnd::BadValue)),
        Some(value) => sending(alloc, Stage::AwaitsHandle(value), handle_request(name)),
    }
}

fn after_value(alloc: Global, entry: &OwnEntry, bytes: &[u8]) -> Result<Option<Progress>, NoMemory>
    ensures { IfOk result (λ found. (payload : List ℕ) → told found payload
        ≡ replies.after_value (entry_kept entry.now) bytes.now payload) }
{
    if bytes.len() != entry.size as usize {
        return Ok(None);
    }
    let line = value_line(alloc, entry.type_id, bytes)?;
    let progress = done_with(alloc, line)?;
    Ok(Some(progress))
}

fn after_handle(alloc: Global, value: Octets, bytes: &[u8]) -> Result<Option<Progress>, NoMemory>
    ensures { IfOk result (λ found. (payload : List ℕ) → told found payload
        ≡ replies.after_handle value bytes.now payload) }
{
    if bytes.len() != 4 {
        return Ok(None);
    }
    let handle = get32(bytes, 0);
    let asked = write_request(handle, value);
    let progress = sending(alloc, Stage::AwaitsWrite(handle), asked)?;
    Ok(Some(progress))
}

fn after_write(alloc: Global, handle: u32) -> Result<Option<Progress>, NoMemory>
    ensures { IfOk result (λ found. (payload : List ℕ) → told found payload
        ≡ stages.progress (stages.AwaitsLast ok_line) (stages.ToSend (release_request handle) ∷ [])) }
{
    let asked = release_request(alloc, handle)?;
    let progress = sending(alloc, Stage::AwaitsOk, asked)?;
    Ok(Some(progress))
}

fn after_upload_info(alloc: Global, bytes: &[u8]) -> Result<Option<Progress>, NoMemory>
    ensures { IfOk result (λ found. (payload : List ℕ) → told found payload
        ≡ replies.after_upload_info bytes.now payload) }
{
    if bytes.len() != 8 {
        return Ok(None);
    }
    let asked = upload_request(get32(bytes, 4));
    let progress = sending(alloc, Stage::AwaitsUpload(get32(bytes, 0)), asked)?;
    Ok(Some(progress))
}

fn after_upload(alloc: Global, count: u32, bytes: &[u8]) -> Result<Option<Progress>, NoMemory>
    ensures { IfOk result (λ found. (payload : List ℕ) → told found payload
        ≡ replies.after_upload (entries_in count bytes.now) payload) }
{
    match entry_lines(alloc, count, bytes)? {
        None => Ok(None),
        Some(outputs) => Ok(Some(Progress {
            stage: Stage::Finished(CallEnd::Done),
            outputs,
        })),
    }
}

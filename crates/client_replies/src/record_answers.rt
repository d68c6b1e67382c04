//! What the answers to a recording's requests lead to.

ghost use Rattle.std.specs.Prelude.{◌≡◌, ℕ, List, IfOk};
ghost use Rattle.ads_commands.specs.Reply.{reply_meant};
ghost use Rattle.spec_formats.specs.Reply.{reply_of};
ghost use Rattle.spec_client.specs.Entries.{one_entry_in};
ghost use Rattle.spec_client.specs.Recordings as recordings;
ghost use Rattle.spec_client.specs.Replies as replies;
ghost use Rattle.spec_client.specs.Stages as stages;
ghost use Rattle.client_replies.specs.RecordParts.{told_in};
ghost use Rattle.client_replies.specs.Stages.{progress_kept, recording_kept, wait_kept};

use crate::entries::one_entry;
use crate::recording::{RecordWait, Recording};
use crate::recordings::{
    after_deletion, after_entry, after_notification, recording_ended, waiting,
};
use crate::replies::{bytes_given, handle_given, result_in};
use crate::stage::{CallEnd, Progress};
use ads_base::{ListOf, NoMemory, Octets, Peer};
use ads_commands::{Reply, read_reply};
use std::alloc::Global;

/// What an answer leads to in a recording: its AMS error, its command, and its bytes behind the AMS header.
#[tactic(auto, unfolding(spec_client::specs::Replies::after_answer))]
pub(crate) fn record_answered(
    alloc: Global,
    wait: RecordWait,
    r: Recording,
    error: u32,
    command: u16,
    payload: Octets,
) -> Result<Progress, NoMemory>
    ensures { IfOk result (λ p. progress_kept p
        ≡ replies.after_answer (stages.Records (wait_kept wait) (recording_kept r)) error (reply_of command payload) payload) }
{
    if error != 0 {
        return Ok(recording_ended(CallEnd::Refused(error), r, ListOf::new(alloc)));
    }
    match after_payload(alloc, wait, r, command, payload.as_slice())? {
        Ok(progress) => Ok(progress),
        Err(r) => Ok(recording_ended(CallEnd::BadPeer(Peer::Text(payload)), r, ListOf::new(alloc))),
    }
}

// The recording comes back where the payload is not what was asked for.
fn after_payload(
    alloc: Global,
    wait: RecordWait,
    r: Recording,
    command: u16,
    payload: &[u8],
) -> Result<Result<Progress, Recording>, NoMemory>
    ensures { IfOk result (λ found. told_in found payload.now
        ≡ replies.after_reply_read (stages.Records (wait_kept wait) (recording_kept r)) (reply_of command payload.now) payload.now) }
{
    let Some(reply) = read_reply(command, payload) else {
        return Ok(Err(r));
    };
    let code = result_in(&reply);
    if code != 0 {
        return Ok(Ok(recording_ended(CallEnd::Refused(code), r, ListOf::new(alloc))));
    }
    after_reply(alloc, wait, r, &reply)
}

// What a reply with the result 0 leads to.
#[tactic(auto, unfolding(spec_client::specs::Replies::after_reply))]
fn after_reply(
    alloc: Global,
    wait: RecordWait,
    r: Recording,
    reply: &Reply<'_>,
) -> Result<Result<Progress, Recording>, NoMemory>
    ensures { IfOk result (λ found. (payload : List ℕ) → told_in found payload
        ≡ replies.after_reply (stages.Records (wait_kept wait) (recording_kept r)) (reply_meant reply.now) payload) }
{
    match wait {
        RecordWait::ForEntry => after_entry_answer(alloc, r, bytes_given(reply)),
        RecordWait::ForNotification(name) => {
            let progress = after_notification(alloc, r, handle_given(reply), name)?;
            Ok(Ok(progress))
        }
        RecordWait::ForSamples => Ok(Ok(waiting(RecordWait::ForSamples, r, ListOf::new(alloc)))),
        RecordWait::ForDeletion(left) => {
            let progress = after_deletion(alloc, left, r, ListOf::new(alloc))?;
            Ok(Ok(progress))
        }
    }
}

fn after_entry_answer(
    alloc: Global,
    r: Recording,
    bytes: &[u8],
) -> Result<Result<Progress, Recording>, NoMemory>
    ensures { IfOk result (λ found. (payload : List ℕ) → told_in found payload
        ≡ recordings.after_record_entry (recording_kept r) (one_entry_in bytes.now) payload) }
{
    match one_entry(alloc, bytes)? {
        None => Ok(Err(r)),
        Some(entry) => {
            let progress = after_entry(alloc, r, entry)?;
            Ok(Ok(progress))
        }
    }
}

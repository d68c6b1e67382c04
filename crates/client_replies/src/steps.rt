//! What a call does when something else than an answer is heard, and how it begins.

ghost use Rattle.std.specs.Prelude.{◌≡◌, ◌∷◌, [], IfOk};
ghost use Rattle.spec_client.specs.Calls as calls;
ghost use Rattle.spec_client.specs.Stages as stages;
ghost use Rattle.spec_client.specs.Steps as steps;
ghost use Rattle.client_replies.specs.Kept.{entry_kept};
ghost use Rattle.client_replies.specs.Rows.{HasNumbers};
ghost use Rattle.client_replies.specs.Stages.{call_meant, purpose_kept, stage_kept, progress_kept};

use crate::asking::{entry_request, upload_info_request};
use crate::call::Call;
use crate::own_entry::OwnEntry;
use crate::printed::{ended_line, sample_line};
use crate::progress::{done_with, sending, stay};
use crate::recordings::{after_record_end, after_record_sample};
use crate::stage::{Asked, Output, Progress, Purpose, Stage};
use crate::watching::Watching;
use ads_base::{ListOf, NoMemory, Octets};
use std::alloc::Global;

/// What a sample leads to: a recording gives a row; those of other notifications, and those that nobody waits for, are passed over.
#[tactic(auto, unfolding(spec_client::specs::Steps::after_sample))]
pub fn after_sample(
    alloc: Global,
    stage: Stage,
    handle: u32,
    time: u64,
    bytes: &[u8],
) -> Result<Progress, NoMemory>
    requires { HasNumbers (stage_kept stage) }
    ensures { IfOk result (λ p. progress_kept p ≡ steps.after_sample (stage_kept stage) handle time bytes.now) }
{
    match stage {
        Stage::Watches(entry, watched, left) => {
            if handle == watched {
                after_watched_sample(alloc, entry, watched, left, time, bytes)
            } else {
                Ok(stay(alloc, Stage::Watches(entry, watched, left)))
            }
        }
        Stage::Records(wait, r) => after_record_sample(alloc, wait, r, handle, time, bytes),
        other => Ok(stay(alloc, other)),
    }
}

fn after_watched_sample(
    alloc: Global,
    entry: OwnEntry,
    handle: u32,
    left: u32,
    time: u64,
    bytes: &[u8],
) -> Result<Progress, NoMemory>
    ensures { IfOk result (λ p. progress_kept p
        ≡ steps.after_watched_sample (entry_kept entry) handle left time bytes.now) }
{
    if left == 0 {
        return Ok(stay(alloc, Stage::Watches(entry, handle, 0)));
    }
    let line = sample_line(alloc, time, entry.type_id, bytes)?;
    with_samples_left(alloc, entry, handle, left - 1, line)
}

// Behind the last sample the notification is deleted.
fn with_samples_left(
    alloc: Global,
    entry: OwnEntry,
    handle: u32,
    left: u32,
    line: Octets,
) -> Result<Progress, NoMemory>
    ensures { IfOk result (λ p. progress_kept p
        ≡ steps.with_samples_left (entry_kept entry) handle left line) }
{
    let mut outputs = ListOf::new(alloc);
    outputs.push(alloc, Output::ToPrint(line))?;
    if left > 0 {
        return Ok(Progress {
            stage: Stage::Watches(entry, handle, left),
            outputs,
        });
    }
    outputs.push(alloc, Output::ToSend(Asked::Delete { handle }))?;
    Ok(Progress {
        stage: Stage::AwaitsDeletion,
        outputs,
    })
}

/// What the end of a notification leads to: a call that watches it is done, and a recording goes on without it.
#[tactic(auto, unfolding(spec_client::specs::Steps::after_end))]
pub fn after_end(alloc: Global, stage: Stage, handle: u32) -> Result<Progress, NoMemory>
    ensures { IfOk result (λ p. progress_kept p ≡ steps.after_end (stage_kept stage) handle) }
{
    match stage {
        Stage::Watches(entry, watched, left) => {
            if handle == watched {
                let line = ended_line(alloc)?;
                done_with(alloc, line)
            } else {
                Ok(stay(alloc, Stage::Watches(entry, watched, left)))
            }
        }
        Stage::Records(wait, r) => after_record_end(alloc, wait, r, handle),
        other => Ok(stay(alloc, other)),
    }
}

/// The first request of a call.
#[tactic(auto, unfolding(spec_client::specs::Steps::begun))]
pub fn begun(alloc: Global, call: Call) -> Result<Progress, NoMemory>
    ensures { IfOk result (λ p. progress_kept p ≡ steps.begun (call_meant call)) }
{
    match call {
        Call::Info => sending(alloc, Stage::AwaitsFacts, Asked::DeviceInfo),
        Call::State => sending(alloc, Stage::AwaitsState, Asked::State),
        Call::Control(ads, device) => sending(
            alloc,
            Stage::AwaitsOk,
            Asked::Control { ads, device },
        ),
        Call::Get(name) => asking_entry(alloc, Purpose::ToGet, name),
        Call::Set(name, text) => asking_entry(alloc, Purpose::ToSet(text), name),
        Call::List => sending(alloc, Stage::AwaitsUploadInfo, upload_info_request()),
        Call::Watch {
            name,
            mode,
            cycle,
            count,
        } => asking_entry(
            alloc,
            Purpose::ToWatch(Watching { mode, cycle, count }),
            name,
        ),
        Call::Show(name) => asking_entry(alloc, Purpose::ToShow, name),
    }
}

fn asking_entry(alloc: Global, purpose: Purpose, name: Octets) -> Result<Progress, NoMemory>
    ensures { IfOk result (λ p. progress_kept p
        ≡ stages.progress (stages.AwaitsEntry (purpose_kept purpose) name) (stages.ToSend (calls.entry_request name) ∷ [])) }
{
    let asked = entry_request(alloc, name.as_slice())?;
    sending(alloc, Stage::AwaitsEntry(purpose, name), asked)
}

//! The samples of a notification that are not told yet.

ghost use Rattle.std.specs.Prelude.{◌≡◌, map, option_map, IfOk};
ghost use Rattle.spec_formats.specs.NotificationReading.{notification_of};
ghost use Rattle.spec_client.specs.Heard.{heard_of_sample, samples_of_stamps};
ghost use Rattle.client_core.specs.Heard.{heard_meant};
ghost use Rattle.client_core.specs.Samples.{stamped};

use crate::Heard;
use ads_base::{NoMemory, Octets};
use notify_frames::{Notes, read_note};
use std::alloc::Global;
use std::collections::VecDeque;
use std::marker::Model;

/// A sample with its stamp's moment.
#[derive(Drop)]
pub(crate) struct StampedSample {
    time: u64,
    handle: u32,
    bytes: Octets,
}

impl Model for StampedSample {
    ghost use Rattle.spec_client.specs.Heard as spec;

    ghost Value = { spec.StampedSample };

    ghost view = { λ s. record { time = s.time; sample = record { handle = s.handle; bytes = s.bytes } } };
}

impl StampedSample {
    /// What is heard of it: one without bytes says that its notification has ended.
    pub fn heard(self) -> Heard
        ensures { heard_meant result ≡ heard_of_sample self }
    {
        let StampedSample {
            time,
            handle,
            bytes,
        } = self;
        if bytes.len() == 0 {
            return Heard::Ended(handle);
        }
        Heard::Sample {
            handle,
            time,
            bytes,
        }
    }
}

/// The samples of a notification's payload; `None` where it is none.
#[tactic(auto, using(crate::proofs::SamplesCopied::samples_found, crate::proofs::SamplesCopied::none_found))]
pub(crate) fn samples_in(
    alloc: Global,
    payload: &[u8],
) -> Result<Option<VecDeque<StampedSample>>, NoMemory>
    ensures { IfOk result (λ found. option_map (λ q. q.items) found ≡ option_map samples_of_stamps (notification_of payload.now)) }
{
    let Some(notes) = read_note(payload) else {
        return Ok(None);
    };
    let samples = copied(alloc, notes)?;
    Ok(Some(samples))
}

// The samples, each with bytes of its own.
fn copied(alloc: Global, notes: Notes<'_>) -> Result<VecDeque<StampedSample>, NoMemory>
    ensures { IfOk result (λ samples. samples.items ≡ map stamped notes.entry) }
{
    let mut notes = notes;
    let mut samples = VecDeque::new(alloc);
    while let Some((time, sample)) = notes.next() {
        let bytes = Octets::copy_of(alloc, sample.bytes)?;
        samples.push_back(StampedSample {
            time,
            handle: sample.handle,
            bytes,
        })?;
    }
    Ok(samples)
}

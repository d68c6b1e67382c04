//! Where the reading of a notification stands.

ghost use Rattle.std.specs.Prelude.{◌≡◌, ◌+◌, ◌<◌, ◌≤◌, IsSome, IfSome, MatchOption, None, option_map};
ghost use Rattle.std.specs.Option.{option_and_then};
ghost use Rattle.spec_formats.specs.NotificationReading.{sample_of};
ghost use Rattle.notify_frames.specs.Samples.{sample_meant};
ghost use Rattle.notify_frames.specs.Place.{left_of, left_behind, left_before};

use crate::Sample;
use ads_base::{get32, get64};

/// So many samples of a stamp of this moment are left, and then so many stamps.
#[derive(Clone, Copy, Debug)]
pub struct Place<'a> {
    pub time: u64,
    pub samples: u32,
    pub stamps: u32,
    pub bytes: &'a [u8],
}

/// The next sample with its moment, and where it leaves the reading. Stamps without samples are passed over.
pub fn step(place: Place<'_>) -> Option<(u64, Sample<'_>, Place<'_>)>
    requires { IsSome (left_of place) }
    ensures { left_of place.entry ≡ left_before result }
{
    let mut place = place;
    while place.samples == 0 {
        if place.stamps == 0 {
            return None;
        }
        place = next_stamp(place)?;
    }
    take_sample(place)
}

// The stamp in front.
fn next_stamp(place: Place<'_>) -> Option<Place<'_>>
    requires none_left { place.samples ≡ 0 }
    requires some { 0 < place.stamps }
    ensures left { option_and_then left_of result ≡ left_of place.entry }
    ensures fewer { IfSome result (λ p. p.stamps + 1 ≡ place.entry.stamps) }
{
    let bytes = place.bytes;
    if bytes.len() < 12 {
        return None;
    }
    Some(Place {
        time: get64(bytes, 0),
        samples: get32(bytes, 8),
        stamps: place.stamps - 1,
        bytes: &bytes[12..],
    })
}

// The sample in front.
fn take_sample(place: Place<'_>) -> Option<(u64, Sample<'_>, Place<'_>)>
    requires { 0 < place.samples }
    ensures { MatchOption result (left_of place.entry ≡ None) (λ x. left_of place.entry ≡ left_behind x.0 x.1 x.2) }
{
    let (sample, rest) = first_sample(place.bytes)?;
    let after = Place {
        time: place.time,
        samples: place.samples - 1,
        stamps: place.stamps,
        bytes: rest,
    };
    Some((place.time, sample, after))
}

/// The first sample, and the bytes after it.
#[tactic(auto, unfolding(spec_formats::specs::NotificationReading::sample_of))]
pub fn first_sample(bytes: &[u8]) -> Option<(Sample<'_>, &[u8])>
    ensures { option_map (λ (s, rest). (sample_meant s, rest.now)) result ≡ sample_of bytes.now }
{
    if bytes.len() < 8 {
        return None;
    }
    let size = get32(bytes, 4) as usize;
    if bytes.len() < 8 + size {
        return None;
    }
    let sample = Sample {
        handle: get32(bytes, 0),
        bytes: &bytes[8..8 + size],
    };
    Some((sample, &bytes[8 + size..]))
}

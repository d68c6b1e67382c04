//! A payload is walked over to see that it is whole.

ghost use Rattle.std.specs.Prelude.{◌≡◌, ℕ, List, option_map};
ghost use Rattle.spec_formats.specs.Notification.{Sample, Stamp};
ghost use Rattle.spec_formats.specs.NotificationReading.{samples_of, stamp_of, stamps_of};

use crate::place::first_sample;
use ads_base::get32;

/// What stands behind so many samples.
pub fn after_samples(count: u32, bytes: &[u8]) -> Option<&[u8]>
    ensures { option_map (λ r. r.now) result ≡ option_map (λ x. x.1) (samples_of count bytes.now) }
{
    let mut rest = bytes;
    for _ in 0..count {
        let (_sample, after) = first_sample(rest)?;
        rest = after;
    }
    Some(rest)
}

/// What stands behind the first stamp.
pub fn after_stamp(bytes: &[u8]) -> Option<&[u8]>
    ensures { option_map (λ r. r.now) result ≡ option_map (λ x. x.1) (stamp_of bytes.now) }
{
    if bytes.len() < 12 {
        return None;
    }
    after_samples(get32(bytes, 8), &bytes[12..])
}

/// What stands behind so many stamps.
pub fn after_stamps(count: u32, bytes: &[u8]) -> Option<&[u8]>
    ensures { option_map (λ r. r.now) result ≡ option_map (λ x. x.1) (stamps_of count bytes.now) }
{
    let mut rest = bytes;
    for _ in 0..count {
        let after = after_stamp(rest)?;
        rest = after;
    }
    Some(rest)
}

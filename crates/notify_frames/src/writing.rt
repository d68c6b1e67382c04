//! One stamp is written.

ghost use Rattle.std.specs.Prelude.{◌≡◌, ◌+◌, ◌≤◌, [], ◌∷◌, ◌++◌, length, sum_by, OnOk, OnErr};
ghost use Rattle.std.specs.List.{flat_map};
ghost use Rattle.ads_base.specs.Octets.{Extends};
ghost use Rattle.spec_formats.specs.Notification.{notification_bytes, sample_bytes};
ghost use Rattle.notify_frames.specs.Samples.{IsWritable, sample_of, samples_of, stamp_of};

use crate::{OwnSample, Samples};
use ads_base::{NoMemory, Octets, put32, put64};
use std::alloc::Global;

/// Appends the payload of a notification with one stamp: these samples, at this moment of 100 ns since 1 January 1601.
pub fn put_note(
    alloc: Global,
    time: u64,
    samples: &Samples,
    out: &mut Octets,
) -> Result<(), NoMemory>
    requires { IsWritable samples.now }
    ensures ok { OnOk result (out.new ≡ out.old ++ notification_bytes (stamp_of time samples.now ∷ [])) }
    ensures no_memory { OnErr result (out.new ≡ out.old) }
{
    let before = out.len();
    let put = append_note(alloc, time, samples.as_slice(), out);
    out.cut_back(before, put)
}

// After an error a part of the payload may stand there.
fn append_note(
    alloc: Global,
    time: u64,
    samples: &[OwnSample],
    out: &mut Octets,
) -> Result<(), NoMemory>
    requires { IsWritable samples.now }
    ensures ok { OnOk result (out.new ≡ out.old ++ notification_bytes (stamp_of time samples.now ∷ [])) }
    ensures no_memory { OnErr result (Extends out.old out.new) }
{
    // Number of stamps 4, time 8, number of samples 4, and the samples.
    let len = 16 + size_of(samples);
    out.reserve(alloc, len as usize + 4)?;
    put32(alloc, out, len)?;
    put32(alloc, out, 1)?;
    put64(alloc, out, time)?;
    put32(alloc, out, samples.len() as u32)?;
    append_samples(alloc, samples, out)?;
    Ok(())
}

// How many bytes the samples take.
fn size_of(samples: &[OwnSample]) -> u32
    requires { IsWritable samples.now }
    ensures size { result ≡ length (flat_map sample_bytes (samples_of samples.now)) }
    ensures bound { result ≤ 1052672 }
{
    let mut size = 0;
    for sample in samples {
        size += 8 + sample.bytes.len() as u32;
    }
    size
}

// After an error a part of the samples may stand there.
fn append_samples(alloc: Global, samples: &[OwnSample], out: &mut Octets) -> Result<(), NoMemory>
    requires { IsWritable samples.now }
    ensures ok { OnOk result (out.new ≡ out.old ++ flat_map sample_bytes (samples_of samples.now)) }
    ensures no_memory { OnErr result (Extends out.old out.new) }
{
    for sample in samples {
        append_sample(alloc, sample, out)?;
    }
    Ok(())
}

// After an error a part of the sample may stand there.
fn append_sample(alloc: Global, sample: &OwnSample, out: &mut Octets) -> Result<(), NoMemory>
    requires { length sample.now.bytes ≤ 2048 }
    ensures ok { OnOk result (out.new ≡ out.old ++ sample_bytes (sample_of sample.now)) }
    ensures no_memory { OnErr result (Extends out.old out.new) }
{
    put32(alloc, out, sample.handle)?;
    put32(alloc, out, sample.bytes.len() as u32)?;
    out.put(alloc, sample.bytes.as_slice())?;
    Ok(())
}

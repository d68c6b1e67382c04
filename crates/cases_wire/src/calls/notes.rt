//! Calls of notify_frames.

use ads_base::{NoMemory, Octets};
use case_sheets::{Answer, Args, Fault};
use notify_frames::{OwnSample, Samples, put_note, read_note};
use std::alloc::Global;

pub fn make(
    alloc: Global,
    call: &str,
    args: &mut Args<'_>,
    answer: &mut Answer,
) -> Result<(), Fault> {
    match call {
        "read_note" => note_read(args, answer),
        "count_samples" => samples_counted(args, answer),
        "put_note" => note_put(alloc, args, answer)?,
        _ => return Err(Fault::NoCall),
    }
    Ok(())
}

// The moment, the notification and the bytes of each sample; `end` where none comes behind the last.
fn note_read(args: &mut Args<'_>, answer: &mut Answer) {
    let bytes = args.octets();
    let Some(mut notes) = read_note(bytes.as_slice()) else {
        answer.say("none");
        return;
    };
    answer.say("samples");
    for _ in 0..bytes.len() {
        let Some((time, sample)) = notes.next() else {
            break;
        };
        answer.tell(time);
        answer.tell(u64::from(sample.handle));
        answer.hex(sample.bytes);
    }
    answer.say(if notes.next().is_none() {
        "end"
    } else {
        "more"
    });
}

// How many samples there are, and how many bytes they have in all.
fn samples_counted(args: &mut Args<'_>, answer: &mut Answer) {
    let payload = args.octets();
    let Some(mut notes) = read_note(payload.as_slice()) else {
        answer.say("none");
        return;
    };
    let mut samples = 0u64;
    let mut bytes = 0u64;
    for _ in 0..payload.len() {
        let Some((_, sample)) = notes.next() else {
            break;
        };
        samples = samples.saturating_add(1);
        bytes = bytes.saturating_add(sample.bytes.len() as u64);
    }
    answer.name("samples", samples);
    answer.name("bytes", bytes);
}

// The moment, and then the notification and the bytes of one sample, if there is one.
fn note_put(alloc: Global, args: &mut Args<'_>, answer: &mut Answer) -> Result<(), NoMemory> {
    let time = args.u64();
    let mut samples = Samples::new(alloc);
    let mut out = Octets::new(alloc);
    if args.has_more() {
        let handle = args.u32();
        let bytes = args.octets();
        if bytes.len() > 2048 {
            args.refuse();
            return Ok(());
        }
        samples.push(alloc, OwnSample { handle, bytes })?;
        put_note(alloc, time, &samples, &mut out)?;
    } else {
        put_note(alloc, time, &samples, &mut out)?;
    }
    answer.hex(out.as_slice());
    Ok(())
}

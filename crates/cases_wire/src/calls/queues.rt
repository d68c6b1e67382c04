//! Calls of out_queue.

use ads_base::NoMemory;
use case_sheets::{Answer, Args, Fault};
use out_queue::{OutQueue, Pushed};
use std::alloc::Global;

pub fn make(
    alloc: Global,
    queue: &mut OutQueue,
    call: &str,
    args: &mut Args<'_>,
    answer: &mut Answer,
) -> Result<(), Fault> {
    match call {
        "new" => {
            *queue = OutQueue::new(alloc)?;
            answer.say("ok");
        }
        "push" => answer.say(match queue.push(alloc, args.octets().as_slice())? {
            Pushed::Done => "done",
            Pushed::Over => "over",
        }),
        "front" => match queue.front() {
            Some(left) => answer.hex(left),
            None => answer.say("none"),
        },
        "took" => match took(queue, args.u32()) {
            Some(n) => answer.tell(u64::from(n)),
            None => answer.say("none"),
        },
        "pass" => match first_lost(alloc, queue, args.u32())? {
            Some(number) => answer.name("lost", u64::from(number)),
            None => answer.say("all"),
        },
        _ => return Err(Fault::NoCall),
    }
    Ok(())
}

// So many bytes of the front are taken, or all where it has fewer: how many.
fn took(queue: &mut OutQueue, most: u32) -> Option<u32> {
    let n = queue.front()?.len().min(most as usize);
    let Ok(taken) = u32::try_from(n) else {
        return None;
    };
    queue.took(taken);
    Some(taken)
}

// So many frames of 46 bytes are pushed, and then each is taken in two parts: the first that does not come.
fn first_lost(alloc: Global, queue: &mut OutQueue, count: u32) -> Result<Option<u32>, NoMemory> {
    for number in 0..count {
        if queue.push(alloc, &frame_of(number))? != Pushed::Done {
            return Ok(Some(number));
        }
    }
    for number in 0..count {
        if queue.front() != Some(frame_of(number).as_slice())
            || took(queue, 40) != Some(40)
            || took(queue, 40) != Some(6)
        {
            return Ok(Some(number));
        }
    }
    Ok(None)
}

// A frame of 46 bytes that bears a number.
fn frame_of(number: u32) -> [u8; 46] {
    let mut frame = [0u8; 46];
    let digits = number.to_le_bytes();
    frame[0] = digits[0];
    frame[20] = digits[1];
    frame[45] = digits[2];
    frame
}

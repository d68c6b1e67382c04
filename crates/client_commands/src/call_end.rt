//! What is printed behind a client's call.

ghost use Rattle.std.specs.Prelude.{◌≡◌};
ghost use Rattle.client_replies.specs.Stages.{end_meant};
ghost use Rattle.client_commands.specs.Calling.{PrintsAnswer, status_of_call};

use ads_base::NoMemory;
use ads_outside::Sink;
use client_loop::{CallEnd, LoopEnd};
use run_tasks::{LINK_FAULT_LINE, Status, end_without_memory, print_and_end, print_line};
use std::alloc::Global;

/// Prints the last line of a call that ended so, and ends with its status.
pub fn print_answer<S: Sink>(
    alloc: Global,
    answer: Result<LoopEnd, NoMemory>,
    out: &mut S,
) -> Status
    ensures { PrintsAnswer answer result (S.state out.old) (S.state out.new) }
{
    match answer {
        Ok(LoopEnd::Call(end)) => print_line(alloc, status_of_end(end), out),
        Ok(LoopEnd::Budget) => print_line(alloc, Status::Budget, out),
        Ok(LoopEnd::LinkFault) => print_and_end(out, LINK_FAULT_LINE, Status::LinkFault),
        Ok(LoopEnd::WriteFault) => Status::WriteFault,
        Err(NoMemory) => end_without_memory(out),
    }
}

fn status_of_end(end: CallEnd) -> Status
    ensures { result ≡ status_of_call (end_meant end) }
{
    match end {
        CallEnd::Done => Status::Done,
        CallEnd::Refused(code) => Status::Refused(code),
        CallEnd::BadPeer(broke) => Status::BadPeer(broke),
        CallEnd::BadValue => Status::BadValue,
        CallEnd::TimedOut { sent, now } => Status::TimedOut { sent, now },
    }
}

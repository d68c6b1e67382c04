//! What is printed at the end of a run.

ghost use Rattle.std.specs.Prelude.{◌≡◌};
ghost use Rattle.run_tasks.specs.Ending.{line_alone};
ghost use Rattle.run_tasks.specs.Prints.{PrintsEnding, PutsMemoryLine};

use crate::outcome::Outcome;
use crate::status::Status;
use crate::status_line::{MEMORY_LINE, last_line};
use ads_base::NoMemory;
use ads_outside::{Put, Sink};
use std::alloc::Global;

/// Prints a text and ends with a status, or with what the sink answers. No empty piece is put.
pub fn print_and_end<S: Sink>(out: &mut S, text: &[u8], status: Status) -> Status
    ensures { PrintsEnding (record { status = status; text = text.now }) result (S.state out.old) (S.state out.new) }
{
    if text.is_empty() {
        return status;
    }
    match out.put(text) {
        Put::All => status,
        Put::Failed => Status::WriteFault,
        Put::Memory => end_without_memory(out),
    }
}

/// Prints the text of an outcome and ends with its status, or with what the sink answers.
pub fn print_outcome<S: Sink>(out: &mut S, outcome: Outcome) -> Status
    ensures { PrintsEnding (record { status = outcome.status; text = outcome.text }) result (S.state out.old) (S.state out.new) }
{
    let Outcome { status, text } = outcome;
    print_and_end(out, text.as_slice(), status)
}

/// Ends with a status whose last line is all that is printed.
pub fn print_line<S: Sink>(alloc: Global, status: Status, out: &mut S) -> Status
    ensures { PrintsEnding (line_alone status) result (S.state out.old) (S.state out.new) }
{
    match last_line(alloc, &status) {
        Ok(line) => print_and_end(out, line.as_slice(), status),
        Err(NoMemory) => end_without_memory(out),
    }
}

/// Ends with want of memory: its line may be cut or missing.
pub fn end_without_memory<S: Sink>(out: &mut S) -> Status
    ensures memory { result ≡ Status.Memory }
    ensures line { PutsMemoryLine (S.state out.old) (S.state out.new) }
{
    let _ = out.put(MEMORY_LINE);
    Status::Memory
}

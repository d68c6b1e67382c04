//! What every machine over a wire does: the wire is started, and `listening` told; at its end its counts are printed.

ghost use Rattle.std.specs.Prelude.{◌≡◌, ◌++◌, IfErr, IfOk, OnOk};
ghost use Rattle.plant_commands.specs.FileOutcomes.{IsOfService};
ghost use Rattle.run_tasks.specs.Prints.{PrintsEnding};
ghost use Rattle.run_tasks.specs.Service.{counts_and_line};
ghost use Rattle.plant_commands.specs.Serving.{CannotPut, CannotRun, IsStarted, IsTold};
ghost use Rattle.run_tasks.specs.StatusTable.{last_line_of};

use ads_base::{NoMemory, Octets};
use ads_outside::{Put, Sink, Started, Wire};
use run_tasks::{LINK_FAULT_LINE, Status, end_without_memory, last_line, print_and_end};
use std::alloc::Global;

/// The line that tells that the wire listens.
const LISTENING_LINE: &[u8] = b"listening\n";

/// Starts the wire for the description with this name and these bytes, and tells that it listens; or how the run ends,
/// since it could not.
pub fn start_and_tell<W: Wire, S: Sink>(
    listen: &str,
    name: &str,
    first: &[u8],
    wire: &mut W,
    out: &mut S,
) -> Result<(), Status>
    ensures status { IfErr result IsOfService }
    ensures ok { OnOk result (IsStarted (record { listen = listen.now; name = name.now; first = first.now })
        (S.state out.old) (S.state out.new) (W.state wire.old).history (W.state wire.new).history) }
    ensures err { IfErr result (λ s. CannotRun (record { listen = listen.now; name = name.now; first = first.now }) s
        (S.state out.old) (S.state out.new) (W.state wire.old).history (W.state wire.new).history) }
{
    match wire.start(listen, name, first) {
        Started::Ready => match tell_listening(out) {
            Ok(()) => Ok(()),
            Err(status) => Err(status),
        },
        Started::Failed => Err(print_and_end(out, LINK_FAULT_LINE, Status::LinkFault)),
        Started::Memory => Err(end_without_memory(out)),
    }
}

// It is told that the wire listens.
fn tell_listening<S: Sink>(out: &mut S) -> Result<(), Status>
    ensures status { IfErr result IsOfService }
    ensures ok { OnOk result (IsTold (S.state out.old) (S.state out.new)) }
    ensures err { IfErr result (λ s. CannotPut s (S.state out.old) (S.state out.new)) }
{
    match out.put(LISTENING_LINE) {
        Put::All => Ok(()),
        Put::Failed => Err(Status::WriteFault),
        Put::Memory => Err(end_without_memory(out)),
    }
}

/// Prints a line of counts and the last line of a status, and ends with that status, or with what the sink answers.
pub fn print_counts<S: Sink>(alloc: Global, counts: Octets, status: Status, out: &mut S) -> Status
    ensures status { IsOfService status → IsOfService result }
    ensures prints { PrintsEnding (counts_and_line counts status) result (S.state out.old) (S.state out.new) }
{
    match with_last_line(alloc, counts, &status) {
        Ok(text) => print_and_end(out, text.as_slice(), status),
        Err(NoMemory) => end_without_memory(out),
    }
}

fn with_last_line(alloc: Global, counts: Octets, status: &Status) -> Result<Octets, NoMemory>
    ensures { IfOk result (λ text. text ≡ counts ++ last_line_of status.now) }
{
    let mut text = counts;
    let line = last_line(alloc, status)?;
    text.put(alloc, line.as_slice())?;
    Ok(text)
}

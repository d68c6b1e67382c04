//! The printed text of a summary.

ghost use Rattle.std.specs.Prelude.{◌≡◌, ◌++◌, OnOk, OnErr, IfOk};
ghost use Rattle.spec_machine.specs.SummaryText.{summary_text_of};
ghost use Rattle.replay_script.specs.Shown.{summary_from};

use crate::Counts;
use crate::texts::put_counted;
use ads_base::{NoMemory, Octets};
use std::alloc::Global;

/// Appends the summary line of a run.
pub fn summary_text(alloc: Global, counts: &Counts, out: &mut Octets) -> Result<(), NoMemory>
    ensures ok { OnOk result (out.new ≡ out.old ++ summary_text_of (summary_from counts.now)) }
    ensures no_memory { OnErr result (out.new ≡ out.old) }
{
    let line = line_of(alloc, counts)?;
    out.put(alloc, line.as_slice())?;
    Ok(())
}

fn line_of(alloc: Global, counts: &Counts) -> Result<Octets, NoMemory>
    ensures { IfOk result (λ line. line ≡ summary_text_of (summary_from counts.now)) }
{
    let mut line = Octets::new(alloc);
    put_counted(alloc, &mut line, b"connections ", counts.connections)?;
    put_counted(alloc, &mut line, b" requests ", counts.requests)?;
    put_counted(alloc, &mut line, b" replies ", counts.replies)?;
    put_counted(alloc, &mut line, b" samples ", counts.samples)?;
    put_counted(alloc, &mut line, b" reloads ", counts.accepted)?;
    put_counted(alloc, &mut line, b" ", counts.refused)?;
    line.push(alloc, b'\n')?;
    Ok(line)
}

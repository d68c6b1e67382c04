//! The counts of a relay, as they are printed.

ghost use Rattle.std.specs.Prelude.{◌≡◌, IfOk};
ghost use Rattle.spec_relay.specs.RelaySummary.{relay_summary_text};
ghost use Rattle.ams_relay.specs.Counts.{counts_in};
ghost use Rattle.ams_relay.specs.Relays.{RelayStanding, StandsAt};
ghost use Rattle.run_tasks.specs.Service.{relay_counts};

use ads_base::{NoMemory, Octets};
use ams_relay::{Relay, RelaySummary};
use replay_script::put_counted;
use std::alloc::Global;

/// The summary line of a relay.
pub fn relay_summary_line(alloc: Global, router: &Relay) -> Result<Octets, NoMemory>
    ensures { IfOk result (λ text. (x : RelayStanding) → StandsAt router.now x → text ≡ relay_counts x.running.state) }
{
    let line = line_of(alloc, router.summary())?;
    Ok(line)
}

fn line_of(alloc: Global, counts: RelaySummary) -> Result<Octets, NoMemory>
    ensures { IfOk result (λ line. line ≡ relay_summary_text (counts_in counts)) }
{
    let mut line = Octets::new(alloc);
    put_counted(alloc, &mut line, b"connections ", counts.connections)?;
    put_counted(alloc, &mut line, b" frames ", counts.frames)?;
    put_counted(alloc, &mut line, b" passed ", counts.passed)?;
    put_counted(alloc, &mut line, b" unknown ", counts.unknown)?;
    line.push(alloc, b'\n')?;
    Ok(line)
}

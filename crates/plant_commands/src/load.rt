//! `load`: a made script is played on a made description.

ghost use Rattle.std.specs.Prelude.{◌<◌, ◌^◌, ◌≡◌, ◌≤◌, IfOk, length};
ghost use Rattle.spec_server.specs.Server.{server_script};
ghost use Rattle.spec_rules.specs.TextVerdict.{Described, text_verdict};
ghost use Rattle.load_maker.specs.LoadDescription.{load_description};
ghost use Rattle.load_maker.specs.LoadScript.{load_lines};
ghost use Rattle.load_maker.specs.MadeLines.{script_said};
ghost use Rattle.std.specs.Prelude.{Ok};
ghost use Rattle.run_tasks.specs.Load.{load_text};
ghost use Rattle.run_tasks.specs.Outcomes.{IsOutcome};
ghost use Rattle.run_tasks.specs.Verdict.{verdict_of_load};

use crate::play::play_counts;
use ads_base::{NoMemory, Octets};
use load_maker::{Load, make};
use replay_script::read_script;
use run_tasks::{Outcome, Status};
use server_core::Sources;
use std::alloc::Global;
use std::thread::Threads;
use symbol_file::read;

/// The outcome of the load of `n`.
pub fn load<T: Threads + Sync, G: Sources>(
    rt: &T,
    alloc: Global,
    n: u32,
    signals: G,
) -> Result<Outcome, NoMemory>
    requires few { length (G.waves signals) < 2 ^ 32 }
    requires small { n ≤ 100000 }
    ensures is { IfOk result (IsOutcome (verdict_of_load (G.waves signals) n)) }
    ensures status { IfOk result (λ o. o.status ≡ Status.Done) }
{
    let Load {
        description,
        script,
    } = make(alloc, n)?;
    let text = play_texts(
        rt,
        alloc,
        n,
        description.as_slice(),
        script.as_slice(),
        signals,
    )?;
    Ok(Outcome {
        status: Status::Done,
        text,
    })
}

// The counts of the play of the texts of the load of `n`.
fn play_texts<T: Threads + Sync, G: Sources>(
    rt: &T,
    alloc: Global,
    n: u32,
    description: &[u8],
    script: &[u8],
    signals: G,
) -> Result<Octets, NoMemory>
    requires few { length (G.waves signals) < 2 ^ 32 }
    requires described { text_verdict (length (G.waves signals)) description.now ≡ Described load_description }
    requires said { server_script script.now ≡ Ok (script_said (load_lines n)) }
    requires short { length script.now ≤ 16777216 }
    ensures { IfOk result (λ text. text ≡ load_text (G.waves signals) n) }
{
    match read(alloc, description, signals.count() as u32) {
        Err(e) => Err(e),
        Ok(Err(_)) => unreachable!(),
        Ok(Ok(description)) => match read_script(alloc, script) {
            Err(e) => Err(e),
            Ok(Err(_)) => unreachable!(),
            Ok(Ok(script)) => play_counts(rt, alloc, description, signals, script),
        },
    }
}

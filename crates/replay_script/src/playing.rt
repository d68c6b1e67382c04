//! The play of a script on what is served.

ghost use Rattle.std.specs.Prelude.{◌≡◌, ◌≤◌, ◌+◌, ◌^◌, [], length, IfOk, IfSome, IfNone};
ghost use Rattle.ads_served.specs.Standing.{Standing};
ghost use Rattle.replay_script.specs.Fresh.{OpenNew};
ghost use Rattle.replay_script.specs.Playing.{IsUnused, IsPlay};

use crate::{Script, ScriptWire};
use ads_base::NoMemory;
use ads_outside::{End, Log};
use ads_served::Served;
use serve_loop::serve;
use std::alloc::Global;
use std::thread::Threads;

/// Plays a script, whose lines open each connection once, on what is served, and gives the log.
pub fn play<T: Threads + Sync, M: Served>(
    rt: &T,
    alloc: Global,
    served: &mut M,
    script: Script,
) -> Result<Log, NoMemory>
    requires { OpenNew [] script }
    ensures { IfOk result (λ log. (x : Standing M.World M.Client) → M.serves served.old x → IsUnused x
        → IsPlay M.steps M.noted (M.serves served.new) x script log) }
{
    let Some(limit) = limit_of(&script) else {
        return Err(NoMemory);
    };
    let mut wire = ScriptWire::new(alloc, script);
    let ended = serve(rt, alloc, served, &mut wire, limit);
    let log = wire.into_log();
    match ended {
        End::Done => Ok(log),
        End::Memory => Err(NoMemory),
        End::Budget | End::LinkFault => unreachable!(),
    }
}

// One more than the lines, so that the loop ends where the script does. No memory holds so many lines that this has
// no number.
fn limit_of(script: &Script) -> Option<u64>
    ensures one_more { IfSome result (λ limit. limit ≡ length script.now + 1) }
    ensures too_many { IfNone result (2 ^ 64 ≤ length script.now + 1) }
{
    (script.as_slice().len() as u64).checked_add(1)
}

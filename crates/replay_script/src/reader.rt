//! The reading of a script.

ghost use Rattle.std.specs.Prelude.{◌≡◌, ◌≤◌, IfOk, length};
ghost use Rattle.spec_machine.specs.BuiltLines.{all_lines};
ghost use Rattle.spec_machine.specs.Script.{script_of};

use crate::Script;
use crate::lines::first_line;
use crate::progress::Progress;
use ads_base::NoMemory;
use std::alloc::Global;

/// The script of some bytes, or the number of its first line off the grammar, counted from 1. A `reload` whose text
/// has no full stop is off the grammar at its own line.
pub fn read_script(alloc: Global, bytes: &[u8]) -> Result<Result<Script, u32>, NoMemory>
    requires { length bytes.now ≤ 16777216 }
    ensures { IfOk result (λ answer. script_of all_lines bytes.now ≡ answer) }
{
    let mut progress = Progress::new(alloc);
    let mut rest = bytes;
    while !rest.is_empty() {
        let (line, others) = first_line(rest);
        if !progress.take(alloc, line)? {
            return Ok(Err(progress.lines() + 1));
        }
        rest = others;
    }
    Ok(progress.into_script())
}

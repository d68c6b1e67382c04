//! What a command leads to.

ghost use Rattle.std.specs.Prelude.{IfOk};
ghost use Rattle.run_tasks.specs.Verdict.{ended as verdict_ended};
ghost use Rattle.run_tasks.specs.Outcomes.{IsOutcome};

use crate::status::Status;
use crate::status_line::last_line;
use ads_base::{NoMemory, Octets};
use std::alloc::Global;

/// A status, and all that is to be printed.
#[derive(Drop)]
pub struct Outcome {
    pub status: Status,
    pub text: Octets,
}

/// A status whose last line is all that is printed.
pub fn ended(alloc: Global, status: Status) -> Result<Outcome, NoMemory>
    ensures { IfOk result (λ o. IsOutcome (verdict_ended status) o) }
{
    let text = last_line(alloc, &status)?;
    Ok(Outcome { status, text })
}

//! What is told of a description that is refused.

ghost use Rattle.std.specs.Prelude.{IfOk};
ghost use Rattle.run_tasks.specs.Outcomes.{IsOutcome, status_of_fault};
ghost use Rattle.run_tasks.specs.Verdict.{ended as verdict_ended};

use crate::outcome::{Outcome, ended};
use crate::status::Status;
use ads_base::NoMemory;
use std::alloc::Global;
use symbol_file::DescFault;

/// The end on a description that is refused.
pub fn bad_description(alloc: Global, fault: DescFault) -> Result<Outcome, NoMemory>
    ensures { IfOk result (λ o. IsOutcome (verdict_ended (status_of_fault fault)) o) }
{
    match fault {
        DescFault::Syntax => ended(alloc, Status::BadDescription { number: 0, item: 0 }),
        DescFault::Rule { number, item } => ended(alloc, Status::BadDescription { number, item }),
    }
}

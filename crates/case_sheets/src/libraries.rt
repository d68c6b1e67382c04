//! What the cases of a program call.

use crate::answer::Answer;
use crate::args::Args;
use crate::fault::Fault;
use ads_base::NoMemory;
use std::alloc::Global;

/// The libraries that a program tries, with the objects of theirs that have a history. Cases of one file are steps of it.
pub trait Libraries: Drop {
    /// No object has a history yet.
    fn new(alloc: Global) -> Result<Self, NoMemory>;

    /// Makes the call of this name of a library with the arguments behind it, and writes its answer.
    fn make(
        &mut self,
        alloc: Global,
        library: &str,
        call: &str,
        args: &mut Args<'_>,
        answer: &mut Answer,
    ) -> Result<(), Fault>;
}

//! Which doors a wire has, whom they let in, and how its description is watched.

ghost use Rattle.std.specs.Prelude.{[], false, ◌≡◌};

use crate::refusal::PROGRAM;
use crate::{AllowedNet, WatchPlan};
use std::alloc::Global;

/// What a wire is to know of its doors and its description beside what it is started with.
#[derive(Drop)]
pub(crate) struct DoorPlan {
    // The program that a line on standard error names.
    pub(crate) program: &'static str,
    // How many listening sockets the process was given; where it was given some, they are the doors.
    pub(crate) given: u16,
    // The nets that are let in; all are where there is none.
    pub(crate) allowed: Vec<AllowedNet>,
    pub(crate) watch: WatchPlan,
}

impl DoorPlan {
    /// No socket was given, all are let in, and the description is watched as usual.
    pub(crate) fn open_to_all(alloc: Global) -> DoorPlan
        ensures given { result.given ≡ 0 }
        ensures allowed { result.allowed.items ≡ [] }
        ensures watch { result.watch ≡ record { settle = 0; anew = false } }
    {
        DoorPlan {
            program: PROGRAM,
            given: 0,
            allowed: Vec::new(alloc),
            watch: WatchPlan::usual(),
        }
    }
}

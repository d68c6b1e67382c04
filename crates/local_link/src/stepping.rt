//! Who makes the events of a core.

ghost use denote.Param.Send.{IsSync};
ghost use Rattle.std.specs.Prelude.{OnOk};
ghost use Rattle.server_core.specs.CoreState.{CoreState, after_event, OpensNew};
ghost use Rattle.server_core.specs.Serves.{Serves};

use ads_base::NoMemory;
use ads_outside::Event;
use server_core::{Core, Sources};
use std::alloc::Global;
use std::thread::Threads;

/// Makes the events of a core.
pub trait Steps: Drop {
    /// It may be called.
    ghost can_step: { Self → Type 0 };

    /// The core takes an event.
    fn step<G: Sources>(
        &self,
        alloc: Global,
        core: &mut Core<G>,
        event: Event,
    ) -> Result<(), NoMemory>
        requires { can_step self.now }
        ensures { OnOk result ((x : CoreState) → Serves core.old x → OpensNew x event → Serves core.new (after_event x event)) };
}

/// A runtime whose threads check many sessions at once.
#[derive(Drop)]
pub struct OnThreads<'a, T: Threads + Sync> {
    rt: &'a T,
}

impl<'a, T: Threads + Sync> OnThreads<'a, T> {
    /// The threads of this runtime.
    pub fn new(rt: &'a T) -> Self {
        OnThreads { rt }
    }
}

impl<'a, T: Threads + Sync> Steps for OnThreads<'a, T> {
    ghost can_step = { λ s. IsSync T.row };

    fn step<G: Sources>(
        &self,
        alloc: Global,
        core: &mut Core<G>,
        event: Event,
    ) -> Result<(), NoMemory> {
        let _ = core.step(self.rt, alloc, &event)?;
        Ok(())
    }
}

//! A saver beside a loop, which goes on where a save fails.

ghost use Rattle.std.specs.Prelude.{◌≡◌, ◌+◌, ℕ, List};
ghost use Rattle.serve_loop.specs.Looks.{SeesMore};
ghost use Rattle.keep_loop.specs.Saving.{StandsForSome};
ghost use Rattle.keep_loop.specs.SavingOn.{Saver, MayBeShown, SavesShown, saver};

use crate::looking::look;
use crate::marking::mark_behind;
use crate::{SaveCounts, Told};
use ads_outside::{Event, Wire};
use ads_served::Served;
use persist_store::{Disk, Store};
use serve_loop::{Beside, Go};
use std::alloc::Global;

/// Looks at the body of what is served at each so manieth tick, and goes on where its save fails.
#[derive(Drop)]
pub(crate) struct SavesOn<'a, N: Drop> {
    pub(crate) store: Store,
    /// By which the store is opened again.
    pub(crate) name: &'a str,
    pub(crate) told: N,
    pub(crate) every: u64,
    /// How many more ticks are let pass.
    pub(crate) left: u64,
    pub(crate) counts: SaveCounts,
}

impl<'a, M: Served, D: Disk, N: Told<M> + Drop> Beside<M, D> for SavesOn<'a, N> {
    ghost use Rattle.std.proofs.Common.{arith};
    ghost use Rattle.keep_loop.specs.SavingOn.{MayBeShown, SavesShown, saver};

    ghost Kept = { Unit {0} };

    ghost seen = { λ first start now disk kept looks. SavesShown D.contents D.may_leave D.moment D.left_since D.marked D.names D.fault_count start disk
        (saver first.store first.every first.left first.counts first.name.now) (saver now.store now.every now.left now.counts now.name.now) looks };

    ghost ready = { λ n s disk. MayBeShown D.contents D.may_leave n disk (saver s.store s.every s.left s.counts s.name.now) };

    ghost stopped = { λ _ _ _ _ _. ⊥ };

    ghost told = { λ s cames. N.heard s.told cames };

    ghost asks = { Unit {0} };

    fn comes(&mut self, alloc: Global, served: &M, event: &Event) {
        self.told.comes(alloc, served, event);
    }

    fn came(&mut self, alloc: Global, served: &M, event: &Event, outcome: &M::Came) {
        self.told.came(alloc, served, event, outcome);
    }

    fn ticked<W: Wire>(&mut self, alloc: Global, served: &M, wire: &W, disk: &mut D) -> Go {
        if self.left > 0 {
            self.left -= 1;
            return Go::On;
        }
        look_due::<W, M, D, N>(self, alloc, served, wire, disk);
        Go::On
    }

    ghost begins = { λ s n disk ready. (tt, λ anew. anew) };

    ghost fewer = { λ s n disk ready. record {
      every = ready.every;
      most = ready.most;
      few = ready.few;
      room = (let room = ready.room in omega (arith, room));
      ready = ready.ready;
    } };
}

// A tick whose body is looked at.
fn look_due<W: Wire, M: Served, D: Disk, N: Told<M> + Drop>(
    saves: &mut SavesOn<N>,
    alloc: Global,
    served: &M,
    wire: &W,
    disk: &mut D,
)
    requires some { StandsForSome (M.serves served.now) }
    requires ready { MayBeShown D.contents D.may_leave 1 disk.old
        (saver saves.old.store saves.old.every saves.old.left saves.old.counts saves.old.name.now) }
    requires due { saves.old.left ≡ 0 }
    ensures seen { (first : Saver) (start : D) → SeesMore M.body_of (M.serves served.now) (W.state wire.now).history
        (SavesShown D.contents D.may_leave D.moment D.left_since D.marked D.names D.fault_count start disk.old first
        (saver saves.old.store saves.old.every saves.old.left saves.old.counts saves.old.name.now))
        (λ (kept : Unit {0}). SavesShown D.contents D.may_leave D.moment D.left_since D.marked D.names D.fault_count start disk.new first
        (saver saves.new.store saves.new.every saves.new.left saves.new.counts saves.new.name.now)) }
    ensures ready { (n : ℕ) → MayBeShown D.contents D.may_leave (n + 1) disk.old
        (saver saves.old.store saves.old.every saves.old.left saves.old.counts saves.old.name.now)
        → MayBeShown D.contents D.may_leave n disk.new
        (saver saves.new.store saves.new.every saves.new.left saves.new.counts saves.new.name.now) }
    ensures told { (before : List M.Came) → N.heard saves.old.told before → N.heard saves.new.told before }
{
    let became = look::<M, D, N>(
        alloc,
        served,
        &mut saves.store,
        disk,
        saves.name,
        &mut saves.told,
    );
    saves.counts = saves.counts.after(became);
    mark_behind(wire, disk);
    saves.left = saves.every - 1;
}

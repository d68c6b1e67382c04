//! A saver beside a loop, which stops it where a save fails.

ghost use Rattle.std.specs.Prelude.{◌≡◌, ◌+◌, ℕ, List};
ghost use Rattle.persist_store.specs.Store.{StoreState};
ghost use Rattle.serve_loop.specs.Looks.{Look, IsBodyOf, SeesMore};
ghost use Rattle.keep_loop.specs.Saver.{MayBeShown, SeenBy, StopsAtLook};
ghost use Rattle.keep_loop.specs.Saving.{StandsForSome};

use crate::SaveEnd;
use crate::marking::mark_behind;
use crate::saving::save_body;
use ads_outside::{Event, Wire};
use ads_served::Served;
use persist_store::{Disk, Store};
use serve_loop::{Beside, Go};
use std::alloc::Global;

/// Saves the body of what is served at each so manieth tick, and stops where its save fails.
#[derive(Drop)]
pub(crate) struct SavesOrStops {
    pub(crate) store: Store,
    pub(crate) every: u64,
    /// How many more ticks are let pass.
    pub(crate) left: u64,
    /// How many saves were done.
    pub(crate) saved: u64,
    /// What became of the body that was looked at last.
    pub(crate) became: SaveEnd,
}

impl<M: Served, D: Disk> Beside<M, D> for SavesOrStops {
    ghost use Rattle.std.specs.Prelude.{List, []};
    ghost use Rattle.keep_loop.specs.Saver.{MayBeShown, SeenBy, StopsAtLook};
    ghost use Rattle.keep_loop.specs.SaverLaws.{sees_none, fewer_shown};

    ghost Kept = { List (List ℕ) };

    ghost seen = { λ first start now disk. SeenBy D.contents D.moment D.left_since D.marked D.names D.fault_count first.every first.left first.saved
        now.every now.left now.saved first.store now.store start disk };

    ghost ready = { λ n now disk. MayBeShown D.contents D.may_leave n now.every now.saved now.store disk };

    ghost stopped = { λ old old_disk new new_disk. StopsAtLook D.contents D.may_leave D.moment D.left_since D.marked D.names D.fault_count
        new.became old.left old.store new.store old_disk new_disk };

    ghost asks = { Unit {0} };

    fn came(&mut self, _alloc: Global, _served: &M, _event: &Event, _outcome: &M::Came) {}

    fn ticked<W: Wire>(&mut self, alloc: Global, served: &M, wire: &W, disk: &mut D) -> Go {
        if self.left > 0 {
            self.left -= 1;
            return Go::On;
        }
        look_due(self, alloc, served, wire, disk)
    }

    ghost begins = { λ first n disk ready. (
      [],
      λ anew. sees_none D.contents D.may_leave D.moment D.left_since D.marked D.names D.fault_count D.only_now
          first.every first.left first.saved first.store disk anew ready.ready ready.open_,
    ) };

    ghost fewer = { λ now n disk ready. fewer_shown D.contents D.may_leave n now.every now.saved now.store disk ready };
}

// A tick whose body is looked at.
fn look_due<W: Wire, M: Served, D: Disk>(
    saver: &mut SavesOrStops,
    alloc: Global,
    served: &M,
    wire: &W,
    disk: &mut D,
) -> Go
    requires some { StandsForSome (M.serves served.now) }
    requires ready { MayBeShown D.contents D.may_leave 1 saver.old.every saver.old.saved saver.old.store disk.old }
    requires due { saver.old.left ≡ 0 }
    ensures seen { result ≡ Go.On → (every first_left first_saved : ℕ) (first : StoreState) (start : D) (saves : List (List ℕ))
        → SeesMore M.body_of (M.serves served.now) (W.state wire.now).history
        (SeenBy D.contents D.moment D.left_since D.marked D.names D.fault_count every first_left first_saved
        saver.old.every saver.old.left saver.old.saved first saver.old.store start disk.old saves)
        (SeenBy D.contents D.moment D.left_since D.marked D.names D.fault_count every first_left first_saved
        saver.new.every saver.new.left saver.new.saved first saver.new.store start disk.new) }
    ensures ready { result ≡ Go.On → (n : ℕ) → MayBeShown D.contents D.may_leave (n + 1) saver.old.every saver.old.saved saver.old.store disk.old
        → MayBeShown D.contents D.may_leave n saver.new.every saver.new.saved saver.new.store disk.new }
    ensures stopped { result ≡ Go.Stop → StopsAtLook D.contents D.may_leave D.moment D.left_since D.marked D.names D.fault_count
        saver.new.became saver.old.left saver.old.store saver.new.store disk.old disk.new (IsBodyOf M.body_of (M.serves served.now)) }
{
    let became = save_body(alloc, served, &mut saver.store, disk);
    saver.became = became;
    match became {
        SaveEnd::Same => {
            mark_behind(wire, disk);
            saver.left = saver.every - 1;
            Go::On
        }
        SaveEnd::Saved => {
            mark_behind(wire, disk);
            saver.saved += 1;
            saver.left = saver.every - 1;
            Go::On
        }
        SaveEnd::Failed | SaveEnd::Limit | SaveEnd::Memory => Go::Stop,
    }
}

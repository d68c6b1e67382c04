//! A reload: handles and notifications of one client go on where their symbols are kept.

ghost use Rattle.std.specs.Prelude.{◌≡◌, map, All, IfOk, OnOk};
ghost use Rattle.spec_machine.specs.World.{World};
ghost use Rattle.spec_machine.specs.Client.{Client};
ghost use Rattle.spec_machine.specs.Reloads.{client_reloaded};
ghost use Rattle.session.specs.NoteFrames.{produced_of, IsNoteFrame};

use crate::notes_ended::end_frames;
use crate::{FrameList, Session};
use ads_base::{NetId, NoMemory};
use std::alloc::Global;
use symbol_table::Moves;

impl Session {
    ghost use Rattle.session.specs.Reloading.{AreMoves, IsReloadable};
    ghost use Rattle.session.specs.StandsFor.{StandsFor};

    /// Moves handles and notifications to the new places of their symbols, where these are the numbers of the new ports. A
    /// handle whose symbol is not kept is outdated; a notification that watches neither bytes of one kept symbol nor a port's
    /// own ends, and is told so by a sample of no byte from the NetId before the reload, at the last moment.
    ///
    /// After want of memory the session is not used again.
    pub fn reloaded(
        &mut self,
        alloc: Global,
        moves: &Moves,
        ports: &[u16],
        net: NetId,
        time: u64,
    ) -> Result<FrameList, NoMemory>
        requires { IsReloadable moves.now ports.now self.old }
        ensures frames { IfOk result (λ frames. (w v : World) (c : Client) → AreMoves w.plant v.plant moves.now ports.now → StandsFor w.plant c self.old
            → w.plant.net ≡ net.bytes → map produced_of frames ≡ (client_reloaded time w v c).frames) }
        ensures stands { OnOk result ((w v : World) (c : Client) → AreMoves w.plant v.plant moves.now ports.now → StandsFor w.plant c self.old
            → StandsFor v.plant (client_reloaded time w v c).client self.new) }
        ensures fits { IfOk result (All IsNoteFrame) }
        ensures stream { self.new.stream ≡ self.old.stream }
    {
        let ended = self.watches.moved(alloc, moves, ports)?;
        self.handles.moved(moves);
        end_frames(alloc, ended.as_slice(), net, time)
    }
}

//! A reload is told to the sessions.

ghost use Rattle.std.specs.Prelude.{◌≡◌, All, false, OnOk};
ghost use Rattle.spec_machine.specs.World.{World};
ghost use Rattle.spec_machine.specs.Reloads.{client_reloaded};
ghost use Rattle.server_core.specs.Asked.{IsAsked, EachAsked};
ghost use Rattle.session.specs.Reloading.{AreMoves, IsReloadable};

use crate::Turned;
use ads_base::{NetId, NoMemory};
use std::alloc::Global;
use symbol_table::Moves;

/// Tells each session of a reload after which the ports have these numbers, unless it is to be left out; `out` then holds the
/// frames of the notifications that ended.
pub(crate) fn tell_all(
    alloc: Global,
    list: &mut [Turned],
    moves: &Moves,
    ports: &[u16],
    net: NetId,
    time: u64,
) -> Result<(), NoMemory>
    requires { All (λ t. t.skip ≡ false → IsReloadable moves.now ports.now t.session) list.old }
    ensures { OnOk result ((w v : World) → AreMoves w.plant v.plant moves.now ports.now → w.plant.net ≡ net.bytes
        → EachAsked w.plant v.plant (client_reloaded time w v) list.old list.new) }
{
    for i in 0..list.len() {
        tell_one(alloc, &mut list[i], moves, ports, net, time)?;
    }
    Ok(())
}

fn tell_one(
    alloc: Global,
    turned: &mut Turned,
    moves: &Moves,
    ports: &[u16],
    net: NetId,
    time: u64,
) -> Result<(), NoMemory>
    requires { turned.old.skip ≡ false → IsReloadable moves.now ports.now turned.old.session }
    ensures { OnOk result ((w v : World) → AreMoves w.plant v.plant moves.now ports.now → w.plant.net ≡ net.bytes
        → IsAsked w.plant v.plant (client_reloaded time w v) turned.old turned.new) }
{
    if turned.skip {
        return Ok(());
    }
    turned.out = turned.session.reloaded(alloc, moves, ports, net, time)?;
    Ok(())
}

//! The check of all sessions at a tick.

ghost use Rattle.std.specs.Prelude.{◌≡◌, All, false, OnOk};
ghost use Rattle.std.specs.Thread.{IsSync};
ghost use Rattle.spec_machine.specs.World.{World};
ghost use Rattle.spec_machine.specs.Ticks.{client_after_tick};
ghost use Rattle.port_device.specs.Holds.{HoldsPorts};
ghost use Rattle.session.specs.Served.{IsServed};
ghost use Rattle.server_core.specs.Asked.{IsAsked, EachAsked};
ghost use Rattle.server_core.specs.Checking.{IsCheckable, AreAsked};

use crate::Turned;
use crate::gate::Gate;
use ads_base::{NetId, NoMemory};
use port_device::Ports;
use std::alloc::Global;
use std::thread::{Threads, join_mut};

/// Checks the notifications of each session that are due at a moment, unless it is to be left out; `out` then holds the
/// frames of its samples. All stand as after the checks one after another, in the order of the list.
///
/// Where `levels` is not 0 and the list has two sessions or more, its two halves are checked at once, each with one level
/// less; else one session is checked after another, and each check passes the gate before. After want of memory the
/// sessions are not used again.
pub fn check_all<T: Threads + Sync, G: Gate>(
    rt: &T,
    alloc: Global,
    list: &mut [Turned],
    ports: &Ports,
    net: NetId,
    now: u64,
    levels: u32,
    gate: &G,
) -> Result<(), NoMemory>
    requires { All (λ t. t.skip ≡ false → IsServed ports.now t.session) list.old }
    ensures { OnOk result ((w : World) → HoldsPorts w ports.now → w.plant.net ≡ net.bytes
        → EachAsked w.plant w.plant (client_after_tick now w) list.old list.new) }
{
    check_parts(rt, alloc, list, ports, net, now, levels, gate)
}

fn check_parts<T: Threads + Sync, G: Gate>(
    rt: &T,
    alloc: Global,
    list: &mut [Turned],
    ports: &Ports,
    net: NetId,
    now: u64,
    levels: u32,
    gate: &G,
) -> Result<(), NoMemory>
    requires { All (IsCheckable ports.now) list.old }
    ensures { OnOk result (AreAsked ports.now net.bytes now list.old list.new) }
{
    if levels == 0 || list.len() < 2 {
        return check_in_order(alloc, ports, net, now, gate, list);
    }
    let less = levels - 1;
    let (front, back) = list.split_at_mut(list.len() / 2);
    let (first, second) = join_mut(
        rt,
        &mut || -> Result<(), NoMemory>
            requires { IsSync T.row × IsSync G.row × All (IsCheckable ports.now) front.now }
            ensures { OnOk result (AreAsked ports.entry.now net.bytes now front.entry.now front.exit.now) }
        { check_parts(rt, alloc, front, ports, net, now, less, gate) },
        &mut || -> Result<(), NoMemory>
            requires { IsSync T.row × IsSync G.row × All (IsCheckable ports.now) back.now }
            ensures { OnOk result (AreAsked ports.entry.now net.bytes now back.entry.now back.exit.now) }
        { check_parts(rt, alloc, back, ports, net, now, less, gate) },
    );
    first?;
    second
}

fn check_in_order<G: Gate>(
    alloc: Global,
    ports: &Ports,
    net: NetId,
    now: u64,
    gate: &G,
    list: &mut [Turned],
) -> Result<(), NoMemory>
    requires { All (IsCheckable ports.now) list.old }
    ensures { OnOk result (AreAsked ports.now net.bytes now list.old list.new) }
{
    for i in 0..list.len() {
        check_one(alloc, ports, net, now, gate, &mut list[i])?;
    }
    Ok(())
}

fn check_one<G: Gate>(
    alloc: Global,
    ports: &Ports,
    net: NetId,
    now: u64,
    gate: &G,
    turned: &mut Turned,
) -> Result<(), NoMemory>
    requires { IsCheckable ports.now turned.old }
    ensures { OnOk result ((w : World) → HoldsPorts w ports.now → w.plant.net ≡ net.bytes
        → IsAsked w.plant w.plant (client_after_tick now w) turned.old turned.new) }
{
    if turned.skip {
        return Ok(());
    }
    gate.enter();
    turned.out = turned.session.tick(alloc, ports, net, now)?;
    Ok(())
}

//! A tick.

ghost use Rattle.std.specs.Prelude.{◌≡◌, ◌<◌, ◌≤◌, max, OnOk};
ghost use Rattle.ads_outside.specs.declared.event.Event.TheVariants as event;
ghost use Rattle.server_core.specs.CoreState.{CoreState, after_event};
ghost use Rattle.server_core.specs.DueChecks.{due_checks, due_in};
ghost use Rattle.server_core.specs.ServerView.{view_of};
ghost use Rattle.server_core.specs.Serves.{ServesEach, ServesSome, FollowsEach};

use crate::checking::check_all;
use crate::clients::skip_closing;
use crate::delivering::deliver;
use crate::gate::OpenGate;
use crate::server::Server;
use crate::sources::Sources;
use crate::turned::Turned;
use ads_base::NoMemory;
use std::alloc::Global;
use std::thread::Threads;

// A list is halved so often, so that at most two threads check sessions at once. Each further join costs the processor more
// than its checks take.
const LEVELS: u32 = 1;

// From so many due notifications on: some 0.3 milliseconds of checks. A join costs about half of that.
const THREADS_FROM: u128 = 8_192;

/// A tick: each signal steps, the due notifications of each connection that is not closing are checked, and the
/// frames of their samples are produced, connection after connection.
pub(crate) fn tick<T: Threads + Sync, S: Sources>(
    rt: &T,
    alloc: Global,
    server: &mut Server,
    signals: &mut S,
    moment: u64,
) -> Result<(), NoMemory>
    requires { ServesSome (view_of server.old) (S.waves signals.old) }
    ensures follows { OnOk result ((x : CoreState) → ServesEach (view_of server.old) (S.waves signals.old) x
        → FollowsEach (view_of server.old) (view_of server.new) (S.waves signals.new) x (after_event x (event.Tick moment))) }
    ensures notes { server.new.notes ≡ server.old.notes }
{
    signals.step_into(alloc, &mut server.device.ports);
    server.device.moment = later_of(server.device.moment, moment);
    skip_closing(&server.clients.outlets, &mut server.clients.sessions);
    let levels = levels_for(server.clients.sessions.as_slice(), server.device.moment);
    check_all(
        rt,
        alloc,
        server.clients.sessions.as_mut_slice(),
        &server.device.ports,
        server.device.net,
        server.device.moment,
        levels,
        &OpenGate,
    )?;
    deliver(
        alloc,
        &mut server.clients.outlets,
        &mut server.clients.sessions,
        &mut server.summary,
    )
}

// How often a list is halved: once where so many checks are due that a thread pays, else not at all.
fn levels_for(list: &[Turned], now: u64) -> u32
    ensures few { due_checks now list.now < 8192 → result ≡ 0 }
    ensures many { 8192 ≤ due_checks now list.now → result ≡ 1 }
{
    if count_due(list, now) < THREADS_FROM {
        0
    } else {
        LEVELS
    }
}

// How many notifications are due. None of them is looked at.
fn count_due(list: &[Turned], now: u64) -> u128
    ensures { result ≡ due_checks now list.now }
{
    let mut due = 0u128;
    for turned in list {
        due += due_of(turned, now) as u128;
    }
    due
}

fn due_of(turned: &Turned, now: u64) -> usize
    ensures { result ≡ due_in now turned.now }
{
    if turned.skip {
        0
    } else {
        turned.session.count_due(now)
    }
}

// The later of two moments.
fn later_of(last: u64, moment: u64) -> u64
    ensures { result ≡ max last moment }
{
    if moment > last { moment } else { last }
}

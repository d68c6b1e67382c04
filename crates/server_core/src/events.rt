//! An event is taken.

ghost use Rattle.std.specs.Prelude.{IfOk};
ghost use Rattle.server_core.specs.ServerView.{view_of};
ghost use Rattle.server_core.specs.Serves.{ServesSome};
ghost use Rattle.server_core.specs.Outcomes.{TakesEvent};

use crate::Outcome;
use crate::server::Server;
use crate::sources::Sources;
use crate::ticking::tick;
use ads_base::NoMemory;
use ads_outside::Event;
use std::alloc::Global;
use std::thread::Threads;

/// Takes one event.
pub(crate) fn take_event<T: Threads + Sync, S: Sources>(
    rt: &T,
    alloc: Global,
    server: &mut Server,
    signals: &mut S,
    event: &Event,
) -> Result<Outcome, NoMemory>
    requires { ServesSome (view_of server.old) (S.waves signals.old) }
    ensures { IfOk result (TakesEvent (view_of server.old) (view_of server.new) (S.waves signals.old) (S.waves signals.new) event.now) }
{
    server.settle();
    take_settled(rt, alloc, server, signals, event)
}

// The same, once it is known which connections are idle: an event costs what it touches, and not what was served before it.
fn take_settled<T: Threads + Sync, S: Sources>(
    rt: &T,
    alloc: Global,
    server: &mut Server,
    signals: &mut S,
    event: &Event,
) -> Result<Outcome, NoMemory>
    requires { ServesSome (view_of server.old) (S.waves signals.old) }
    ensures { IfOk result (TakesEvent (view_of server.old) (view_of server.new) (S.waves signals.old) (S.waves signals.new) event.now) }
{
    match event {
        Event::Opened(connection) => {
            server.open(alloc, *connection)?;
            Ok(Outcome::Done)
        }
        Event::Piece(connection, bytes) => {
            server.piece(alloc, *connection, bytes.as_slice())?;
            Ok(Outcome::Done)
        }
        Event::Closed(connection) => {
            server.end(*connection);
            Ok(Outcome::Done)
        }
        Event::Tick(moment) => {
            tick(rt, alloc, server, signals, *moment)?;
            Ok(Outcome::Done)
        }
        Event::Reload(text) => server.reload(alloc, text.as_slice()),
        Event::Writable(connection) => {
            server.writable(*connection);
            Ok(Outcome::Done)
        }
    }
}

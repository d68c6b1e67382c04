//! The connections that are there, in the order of opening.

ghost use Rattle.std.specs.Prelude.{◌≡◌, [], IfOk, OnOk};
ghost use Rattle.connections.specs.Entries.{IsNoEntry};
ghost use Rattle.server_core.specs.Columns.{Opens, IsFreshSession, skipped};

use crate::turned::Turned;
use ads_base::NoMemory;
use ams_tcp::Splitter;
use connections::Outlets;
use session::{FrameList, Session};
use std::alloc::Global;

/// What waits for each connection, by its number, and at equal places its stream and its session.
#[derive(Drop)]
pub(crate) struct Clients {
    pub(crate) outlets: Outlets,
    pub(crate) streams: Vec<Splitter>,
    pub(crate) sessions: Vec<Turned>,
}

impl Clients {
    pub(crate) fn new(alloc: Global) -> Clients
        ensures outlets { result.outlets ≡ [] }
        ensures streams { result.streams.items ≡ [] }
        ensures sessions { result.sessions.items ≡ [] }
    {
        Clients {
            outlets: Outlets::new(alloc),
            streams: Vec::new(alloc),
            sessions: Vec::new(alloc),
        }
    }

    /// A connection is opened, whose number is not there.
    pub(crate) fn open(&mut self, alloc: Global, connection: u32) -> Result<(), NoMemory>
        requires { IsNoEntry self.old.outlets connection }
        ensures { OnOk result (Opens connection self.old self.new) }
    {
        let stream = Splitter::new(alloc)?;
        let turned = fresh_session(alloc)?;
        self.outlets.open(alloc, connection)?;
        self.streams.push(stream)?;
        self.sessions.push(turned)?;
        Ok(())
    }
}

// A session whose client was not heard yet.
fn fresh_session(alloc: Global) -> Result<Turned, NoMemory>
    ensures { IfOk result IsFreshSession }
{
    Ok(Turned {
        session: Session::new(alloc)?,
        skip: false,
        out: FrameList::new(alloc),
    })
}

/// Sessions whose connection is closing are left out from now on.
pub(crate) fn skip_closing(outlets: &Outlets, sessions: &mut Vec<Turned>)
    ensures { sessions.new.items ≡ skipped outlets.now sessions.old.items }
{
    for i in 0..sessions.len() {
        sessions[i].skip = outlets.is_closing(i);
    }
}

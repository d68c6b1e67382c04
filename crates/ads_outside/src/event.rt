//! What happens to a server, one event after another.

ghost use Rattle.std.specs.Prelude.{◌≡◌, IfOk};

use ads_base::{NoMemory, Octets};
use std::alloc::Global;

/// One thing that happens to a server.
#[derive(Debug, Drop)]
pub enum Event {
    /// A connection with this number begins; no other ever has the number.
    Opened(u32),
    /// Bytes that came on a connection.
    Piece(u32, Octets),
    /// A connection's peer is gone.
    Closed(u32),
    /// The clock says this moment, in 100 ns since 1 January 1601.
    Tick(u64),
    /// The description of the device is to be read again: its new bytes.
    Reload(Octets),
    /// A connection takes bytes again.
    Writable(u32),
}

impl Event {
    /// The same event once more.
    pub fn copy(&self, alloc: Global) -> Result<Event, NoMemory>
        ensures { IfOk result (λ event. event ≡ self.now) }
    {
        Ok(match self {
            Event::Opened(conn) => Event::Opened(*conn),
            Event::Piece(conn, bytes) => {
                Event::Piece(*conn, Octets::copy_of(alloc, bytes.as_slice())?)
            }
            Event::Closed(conn) => Event::Closed(*conn),
            Event::Tick(moment) => Event::Tick(*moment),
            Event::Reload(text) => Event::Reload(Octets::copy_of(alloc, text.as_slice())?),
            Event::Writable(conn) => Event::Writable(*conn),
        })
    }
}

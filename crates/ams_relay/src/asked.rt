//! What is remembered of a request that was passed on.

ghost use Rattle.std.specs.Prelude.{◌≡◌, ℕ};
ghost use Rattle.spec_relay.specs.Requests.{is_answered_by};
ghost use Rattle.spec_relay.specs.Routing.{request_from};
ghost use Rattle.spec_formats.specs.Header.{is_same_address};
ghost use Rattle.ams_header.specs.Header.{address_of, ams_header_of};
ghost use Rattle.ams_relay.specs.Asking.{request_of};

use ads_base::AmsAddr;
use ams_header::Header;

/// A request that waits for its response, as its asker keeps it.
#[derive(Clone, Copy)]
pub(crate) struct Asked {
    /// The connection that was asked.
    pub(crate) asked: u32,
    pub(crate) source: AmsAddr,
    pub(crate) target: AmsAddr,
    pub(crate) command: u16,
    pub(crate) id: u32,
}

impl Asked {
    /// Whether a response of a connection answers it.
    pub(crate) fn is_answered_by(&self, conn: u32, h: &Header) -> bool
        ensures { result ≡ is_answered_by conn (ams_header_of h.now) (request_of 0 self.now) }
    {
        self.asked == conn
            && self.command == h.command
            && self.id == h.id
            && is_same(&self.source, &h.target)
            && is_same(&self.target, &h.source)
    }
}

// Two addresses are the same, with their ports.
fn is_same(a: &AmsAddr, b: &AmsAddr) -> bool
    ensures { result ≡ is_same_address (address_of a.now) (address_of b.now) }
{
    a.net.is(b.net) && a.port == b.port
}

/// What is remembered of a frame that goes to a connection.
pub(crate) fn asked_by(conn: u32, h: &Header) -> Asked
    ensures { (asker : ℕ) → request_of asker result ≡ request_from asker conn (ams_header_of h.now) }
{
    Asked {
        asked: conn,
        source: h.source,
        target: h.target,
        command: h.command,
        id: h.id,
    }
}

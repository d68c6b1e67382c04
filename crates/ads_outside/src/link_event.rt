//! What comes over a link.

ghost use Rattle.std.specs.Prelude.{◌≡◌, IfOk, length};
ghost use Rattle.ads_outside.specs.MemLink.{bytes_in};

use ads_base::{ListOf, NoMemory, Octets};
use std::alloc::Global;

/// One thing that comes, with its moment in 100 ns.
#[derive(Debug, Drop)]
pub enum LinkEvent {
    /// Bytes of the peer.
    Bytes(Octets, u64),
    /// Nothing, for a while.
    Quiet(u64),
    /// The end of the connection by the peer.
    Closed(u64),
}

impl LinkEvent {
    /// The same once more.
    pub fn copy(&self, alloc: Global) -> Result<LinkEvent, NoMemory>
        ensures { IfOk result (λ event. event ≡ self.now) }
    {
        Ok(match self {
            LinkEvent::Bytes(bytes, now) => {
                LinkEvent::Bytes(Octets::copy_of(alloc, bytes.as_slice())?, *now)
            }
            LinkEvent::Quiet(now) => LinkEvent::Quiet(*now),
            LinkEvent::Closed(now) => LinkEvent::Closed(*now),
        })
    }

    /// The number of its bytes: none but in `Bytes`.
    pub fn len(&self) -> usize
        ensures { result ≡ length (bytes_in self.now) }
    {
        match self {
            LinkEvent::Bytes(bytes, _) => bytes.len(),
            LinkEvent::Quiet(_) | LinkEvent::Closed(_) => 0,
        }
    }
}

/// What comes, in order.
pub type LinkEvents = ListOf<LinkEvent>;

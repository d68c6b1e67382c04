//! Who speaks on a connection, by the first bytes that came.

ghost use Rattle.std.specs.Prelude.{◌≤◌, length};

use ads_base::{NetId, get16, get32};

/// How many first bytes tell who speaks: an AMS/TCP header, the target's address and the source's.
pub(crate) const HEAD: usize = 22;

/// What the first bytes of a connection tell.
#[derive(Clone, Copy, Debug, PartialEq, Eq)]
pub(crate) enum Spoken {
    /// Fewer bytes came.
    Little,
    /// They begin no frame of AMS/TCP.
    NoFrame,
    /// A frame of this NetId and port.
    As(NetId, u16),
}

/// What these first bytes tell.
pub(crate) fn spoken_in(head: &[u8]) -> Spoken {
    if head.len() < 6 {
        return Spoken::Little;
    }
    let len = get32(head, 2);
    if get16(head, 0) != 0 || len < 32 || 2_097_152 < len {
        return Spoken::NoFrame;
    }
    if head.len() < HEAD {
        return Spoken::Little;
    }
    Spoken::As(net_at(head), get16(head, 20))
}

fn net_at(head: &[u8]) -> NetId
    requires { 22 ≤ length head.now }
{
    NetId {
        bytes: [head[14], head[15], head[16], head[17], head[18], head[19]],
    }
}

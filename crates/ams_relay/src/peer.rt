//! What is kept of one connection that is there, beside its stream and what waits for it.

ghost use Rattle.std.specs.Prelude.{◌≡◌, [], None, IsTrue, Some};
ghost use Rattle.ams_relay.specs.Peers.{net_of};

use crate::asked::Asked;
use ads_base::NetId;
use std::alloc::Global;
use std::collections::VecDeque;

/// The NetId that a connection owns, and the requests that it waits for.
#[derive(Drop)]
pub(crate) struct Peer {
    pub(crate) owned: Option<NetId>,
    // The oldest first. Some may be of connections that are closing or gone by now.
    pub(crate) asked: VecDeque<Asked>,
}

impl Peer {
    /// A connection that owns nothing and asked nothing.
    pub(crate) fn fresh(alloc: Global) -> Peer
        ensures owned { result.owned ≡ None }
        ensures asked { result.asked.items ≡ [] }
    {
        Peer {
            owned: None,
            asked: VecDeque::new(alloc),
        }
    }

    /// Whether it owns a NetId.
    pub(crate) fn owns(&self, net: NetId) -> bool
        ensures { IsTrue result → net_of self.now.owned ≡ Some net.bytes }
    {
        match self.owned {
            Some(owned) => owned.is(net),
            None => false,
        }
    }
}

//! The room in which requests are made.

ghost use Rattle.std.specs.Prelude.{◌≡◌, []};

use ads_base::Octets;
use std::alloc::Global;

/// The packet and the frame of the request that was made last: the next one takes their room.
#[derive(Drop)]
pub struct Room {
    pub packet: Octets,
    pub frame: Octets,
}

impl Room {
    /// Nothing was made.
    pub fn new(alloc: Global) -> Self
        ensures packet { result.packet ≡ [] }
        ensures frame { result.frame ≡ [] }
    {
        Room {
            packet: Octets::new(alloc),
            frame: Octets::new(alloc),
        }
    }
}

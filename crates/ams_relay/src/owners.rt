//! Who owns which NetId.

ghost use Rattle.std.specs.Prelude.{◌≡◌, ℕ, List, Some, is_some, not, bytes_eq, true, false, IsTrue, OnOk, IfSome};
ghost use Rattle.spec_plant.specs.Rights.{rights_of};
ghost use Rattle.spec_relay.specs.RelayState.{RelayState, RelayConnection, owner_of};
ghost use Rattle.spec_relay.specs.Checks.{is_taken_net};
ghost use Rattle.spec_relay.specs.Routing.{with_owner};
ghost use Rattle.ams_relay.specs.Holds.{Holds, owner_in};
ghost use Rattle.ams_relay.specs.Peers.{IsSeat, places_of, net_of, owned_at};
ghost use Rattle.ams_relay.specs.Taking.{IsHeardAt, IsOwnerSeat, number_in};

use crate::router::Router;
use crate::seat::Seat;
use ads_base::{NetId, NoMemory};
use std::alloc::Global;

impl Router {
    /// The connection that is there, is not closing and owns a NetId. The one at a place is asked first, which mostly owns it;
    /// so the NetId is not looked up.
    pub(crate) fn owner_near(&self, near: usize, net: NetId) -> Option<Seat>
        ensures seat { IfSome result (IsSeat self.now) }
        ensures entry { (b : List ℕ) (s : RelayState) → Holds self.now b s → number_in result ≡ owner_in net.bytes self.now.owners.entries }
    {
        match self.owner_at(near, net) {
            Some(owner) => Some(owner),
            None => self.owner_of(net),
        }
    }

    // The connection at a place, where it is not closing and owns a NetId.
    fn owner_at(&self, place: usize, net: NetId) -> Option<Seat>
        ensures { IfSome result (IsOwnerSeat self.now net.bytes) }
    {
        let number = self.outlets.number_at(place)?;
        let place = self.outlets.place_near(place, number)?;
        if place < self.peers.len() && self.has_at(place, net) {
            return Some(Seat { number, place });
        }
        None
    }

    // Whether the connection at a place owns a NetId, and is not closing.
    fn has_at(&self, place: usize, net: NetId) -> bool
        ensures { IsTrue result → net_of (owned_at self.now place) ≡ Some net.bytes }
    {
        match self.owned_at(place) {
            Some(owned) => owned.is(net),
            None => false,
        }
    }

    /// The NetId that the connection at a place owns; None of one that is closing, or is not there.
    pub(crate) fn owned_at(&self, place: usize) -> Option<NetId>
        ensures { result ≡ owned_at self.now place }
    {
        if self.outlets.is_closing(place) {
            return None;
        }
        match self.peers.get(place) {
            Some(peer) => peer.owned,
            None => None,
        }
    }

    // The connection that is there, is not closing and owns a NetId.
    fn owner_of(&self, net: NetId) -> Option<Seat>
        ensures seat { IfSome result (IsSeat self.now) }
        ensures entry { (b : List ℕ) (s : RelayState) → Holds self.now b s → number_in result ≡ owner_in net.bytes self.now.owners.entries }
    {
        let Some(number) = self.owner_number(net) else {
            return None;
        };
        let Some(place) = self.outlets.place_of(number) else {
            return None;
        };
        if place >= self.peers.len() {
            return None;
        }
        Some(Seat { number, place })
    }

    // Its number.
    fn owner_number(&self, net: NetId) -> Option<u32>
        ensures { result ≡ owner_in net.bytes self.now.owners.entries }
    {
        self.owners.get(net.bytes.as_slice()).copied()
    }

    /// Whether the source of a frame of a connection, which is there and not closing, is another's: the connection owns
    /// another NetId, or none and some other owns it.
    pub(crate) fn is_taken(&self, from: Seat, net: NetId) -> bool
        requires { IsSeat self.now from }
        ensures { (b : List ℕ) (s : RelayState) (k : RelayConnection) → Holds self.now b s → IsHeardAt from.number k s
            → result ≡ is_taken_net net.bytes k s.connections }
    {
        match self.peers[from.place].owned {
            Some(owned) => is_other(owned, net),
            None => self.owner_number(net).is_some(),
        }
    }

    /// Whether a connection, which is there and not closing, owns a NetId.
    pub(crate) fn owns(&self, from: Seat, net: NetId) -> bool
        requires { IsSeat self.now from }
        ensures { (b : List ℕ) (s : RelayState) (k : RelayConnection) → Holds self.now b s → IsHeardAt from.number k s
            → IsTrue result → k.client ≡ Some net.bytes }
    {
        self.peers[from.place].owns(net)
    }

    /// A connection owns the source of its frame, which is no other's.
    pub(crate) fn own(&mut self, alloc: Global, from: Seat, net: NetId) -> Result<(), NoMemory>
        requires { IsSeat self.old from }
        ensures follows { OnOk result ((b : List ℕ) (s : RelayState) (k : RelayConnection) → Holds self.old b s → IsHeardAt from.number k s
            → is_taken_net net.bytes k s.connections ≡ false → is_some (rights_of net.bytes s.world.routes) ≡ true
            → Holds self.new b (with_owner from.number net.bytes s)) }
        ensures places { places_of self.new ≡ places_of self.old }
    {
        if self.peers[from.place].owned.is_some() {
            return Ok(());
        }
        let key = net.bytes.to_vec(alloc)?;
        self.owners.insert(key, from.number)?;
        self.peers[from.place].owned = Some(net);
        Ok(())
    }
}

// Two NetIds are not the same.
fn is_other(owned: NetId, net: NetId) -> bool
    ensures { result ≡ not (bytes_eq owned.bytes net.bytes) }
{
    !owned.is(net)
}

//! A packet goes its way.

ghost use Rattle.std.specs.Prelude.{◌≡◌, ℕ, ◌==◌, ◌%◌, List, Some, option_map, OnOk};
ghost use Rattle.spec_frames.specs.Frame.{IsAmsPacket};
ghost use Rattle.spec_formats.specs.Header.{header_of};
ghost use Rattle.spec_relay.specs.RelayState.{RelayState, RelayConnection, owner_of};
ghost use Rattle.spec_relay.specs.Requests.{request_answered};
ghost use Rattle.spec_relay.specs.Checks.{is_closed_by};
ghost use Rattle.spec_relay.specs.Routing.{with_passed, with_request_of, outcome_of_response, outcome_of_request, outcome_by_header};
ghost use Rattle.ams_header.specs.Header.{ams_header_of};
ghost use Rattle.ams_relay.specs.Holds.{Holds};
ghost use Rattle.ams_relay.specs.Peers.{IsSeat, places_of};
ghost use Rattle.ams_relay.specs.Taking.{IsHeardAt, IsOpenedAt, IsSwept, is_refused, number_of};

use crate::router::Router;
use crate::seat::Seat;
use ads_base::NoMemory;
use ams_header::{Header, read};
use std::alloc::Global;

impl Router {
    /// A packet of a connection, which is there and not closing, goes its way.
    pub(crate) fn pass(&mut self, alloc: Global, from: Seat, packet: &[u8]) -> Result<(), NoMemory>
        requires packet { IsAmsPacket packet.now }
        requires seat { IsSeat self.old from }
        ensures follows { OnOk result ((b : List ℕ) (s : RelayState) (k : RelayConnection) → Holds self.old b s → IsHeardAt from.number k s → IsSwept s
            → Holds self.new b (outcome_by_header from.number packet.now k s (header_of packet.now)).after) }
        ensures places { places_of self.new ≡ places_of self.old }
    {
        let Some((h, payload)) = read(packet) else {
            return Ok(());
        };
        if self.is_closed_by(from, &h, payload) {
            self.close(from);
            return Ok(());
        }
        self.own(alloc, from, h.source.net)?;
        if is_response(&h) {
            self.pass_response(alloc, from, &h, packet)
        } else {
            self.pass_request(alloc, from, &h, packet)
        }
    }

    // The first three checks: the data length, the route of the source, and its owner.
    fn is_closed_by(&self, from: Seat, h: &Header, payload: &[u8]) -> bool
        requires { IsSeat self.now from }
        ensures { (b : List ℕ) (s : RelayState) (k : RelayConnection) → Holds self.now b s → IsHeardAt from.number k s
            → result ≡ is_closed_by payload.now (ams_header_of h.now) k s }
    {
        // Whoever owns a NetId has a route, which a relay never loses; so routes are asked at its first frame alone.
        if self.owns(from, h.source.net) {
            return h.len as usize != payload.len();
        }
        if self.is_refused(h, payload) {
            return true;
        }
        self.is_taken(from, h.source.net)
    }

    // The first two: the data length and the route of the source.
    fn is_refused(&self, h: &Header, payload: &[u8]) -> bool
        ensures { (b : List ℕ) (s : RelayState) → Holds self.now b s → result ≡ is_refused payload.now (ams_header_of h.now) s }
    {
        h.len as usize != payload.len() || self.routes.rights(h.source.net).is_none()
    }

    // A response goes to the asker of the oldest request that it answers.
    fn pass_response(
        &mut self,
        alloc: Global,
        from: Seat,
        h: &Header,
        packet: &[u8],
    ) -> Result<(), NoMemory>
        requires packet { IsAmsPacket packet.now }
        requires seat { IsSeat self.old from }
        ensures follows { OnOk result ((b : List ℕ) (s : RelayState) (k : RelayConnection) → Holds self.old b s → IsHeardAt from.number k s → IsSwept s
            → Holds self.new b (outcome_of_response from.number (ams_header_of h.now) packet.now s
            (request_answered from.number (ams_header_of h.now) s.world.requests)).after) }
        ensures places { places_of self.new ≡ places_of self.old }
    {
        let Some(asker) = self.spend(from, h) else {
            return Ok(());
        };
        let fitted = self.give(alloc, asker, from.place, packet)?;
        if fitted {
            self.counts.count_passed();
        }
        Ok(())
    }

    // Any other frame goes to the owner of its target.
    fn pass_request(
        &mut self,
        alloc: Global,
        from: Seat,
        h: &Header,
        packet: &[u8],
    ) -> Result<(), NoMemory>
        requires packet { IsAmsPacket packet.now }
        requires seat { IsSeat self.old from }
        ensures follows { OnOk result ((b : List ℕ) (s : RelayState) (k : RelayConnection) → Holds self.old b s → IsHeardAt from.number k s → IsSwept s
            → k.client ≡ Some h.now.source.net.bytes
            → Holds self.new b (outcome_of_request from.number (ams_header_of h.now) packet.now s
            (owner_of h.now.target.net.bytes s.connections)).after) }
        ensures places { places_of self.new ≡ places_of self.old }
    {
        match self.owner_near(self.near_of(from.place), h.target.net) {
            Some(target) => self.pass_to(alloc, from, target, h, packet),
            None => self.tell_unknown(alloc, from, h),
        }
    }

    // To this one, where it has room.
    fn pass_to(
        &mut self,
        alloc: Global,
        from: Seat,
        target: Seat,
        h: &Header,
        packet: &[u8],
    ) -> Result<(), NoMemory>
        requires packet { IsAmsPacket packet.now }
        requires seat { IsSeat self.old from }
        requires target { IsSeat self.old target }
        ensures follows { OnOk result ((b : List ℕ) (s : RelayState) (k : RelayConnection) → Holds self.old b s → IsHeardAt from.number k s → IsSwept s
            → k.client ≡ Some h.now.source.net.bytes → Some target.number ≡ option_map number_of (owner_of h.now.target.net.bytes s.connections)
            → Holds self.new b (outcome_of_request from.number (ams_header_of h.now) packet.now s
            (owner_of h.now.target.net.bytes s.connections)).after) }
        ensures places { places_of self.new ≡ places_of self.old }
    {
        let fitted = self.give(alloc, target, from.place, packet)?;
        if fitted {
            return self.ask(alloc, from, target.number, h);
        }
        self.tell_unknown(alloc, from, h)
    }

    // It was passed on, and its response is waited for.
    fn ask(&mut self, alloc: Global, from: Seat, target: u32, h: &Header) -> Result<(), NoMemory>
        requires { IsSeat self.old from }
        ensures follows { OnOk result ((b : List ℕ) (s : RelayState) (k : RelayConnection) → Holds self.old b s → IsHeardAt from.number k s → IsSwept s
            → k.client ≡ Some h.now.source.net.bytes → IsOpenedAt target s
            → Holds self.new b (with_passed (with_request_of from.number target (ams_header_of h.now) s))) }
        ensures places { places_of self.new ≡ places_of self.old }
    {
        self.remember(alloc, from, target, h)?;
        self.counts.count_passed();
        Ok(())
    }

    /// Where the connection stood that gave a frame last to the one at a place: it is asked first. No clause speaks of it.
    pub(crate) fn near_of(&self, place: usize) -> usize {
        self.nears.get(place).copied().unwrap_or(0)
    }
}

// Whether a frame is a response.
fn is_response(h: &Header) -> bool
    ensures { result ≡ (h.now.flags % 2 == 1) }
{
    h.flags % 2 == 1
}

//! The stream of a connection is cut into frames, each of which goes its way.

ghost use Rattle.std.specs.Prelude.{◌≡◌, ◌<◌, ◌↔◌, ℕ, List, false, length, IsTrue, IfOk, IfSome, IfNone, OnOk};
ghost use Rattle.ads_outside.specs.declared.event.Event.TheVariants as event;
ghost use Rattle.spec_machine.specs.Piece.{with_received};
ghost use Rattle.spec_relay.specs.RelayState.{RelayState, is_heard_among};
ghost use Rattle.spec_relay.specs.RelayMoves.{relay_after_event};
ghost use Rattle.spec_relay.specs.Routing.{at_connection};
ghost use Rattle.ams_relay.specs.Peers.{IsSeat, places_of};
ghost use Rattle.ams_relay.specs.Relays.{StandsFor};
ghost use Rattle.ams_relay.specs.Taking.{HoldsWith, IsHeardSeat, Takes, end_of_piece};

use crate::Relay;
use crate::router::Router;
use crate::seat::Seat;
use ads_base::NoMemory;
use ams_tcp::{Peeked, Splitter};
use std::alloc::Global;

impl Relay {
    /// A piece of a connection comes in, and all frames that are whole by then are taken. No packet is copied but to where it
    /// waits.
    pub(crate) fn piece(&mut self, alloc: Global, number: u32, bytes: &[u8]) -> Result<(), NoMemory>
        ensures follows { OnOk result ((b : List ℕ) (s : RelayState) → StandsFor self.old b s
            → StandsFor self.new b (relay_after_event s (event.Piece number bytes.now))) }
        ensures failed { self.new.failed ≡ self.old.failed }
    {
        let Some(from) = self.heard(number) else {
            return Ok(());
        };
        self.router
            .take_fed(alloc, from, &mut self.streams[from.place], bytes)
    }

    // The connection of a number, where it is there and not closing.
    fn heard(&self, number: u32) -> Option<Seat>
        ensures found { IfSome result (IsHeardSeat self.now number) }
        ensures absent { IfNone result ((b : List ℕ) (s : RelayState) → StandsFor self.now b s → is_heard_among number s.connections ≡ false) }
    {
        let Some(place) = self.router.outlets.place_of(number) else {
            return None;
        };
        if self.router.outlets.is_closing(place) {
            return None;
        }
        if !self.has_all(place) {
            return None;
        }
        Some(Seat { number, place })
    }

    // Whether each column reaches to a place.
    fn has_all(&self, place: usize) -> bool
        ensures { IsTrue result ↔ ((place < length self.now.router.peers.items) × (place < length self.now.streams.items)) }
    {
        place < self.router.peers.len() && place < self.streams.len()
    }
}

impl Router {
    // A piece comes into the stream of a connection that is there and not closing.
    fn take_fed(
        &mut self,
        alloc: Global,
        from: Seat,
        stream: &mut Splitter,
        bytes: &[u8],
    ) -> Result<(), NoMemory>
        requires { IsSeat self.old from }
        ensures takes { OnOk result ((b : List ℕ) (s : RelayState) → HoldsWith from.number stream.old self.old b s
            → HoldsWith from.number stream.new self.new b (end_of_piece from.number (at_connection from.number (with_received bytes.now) s))) }
        ensures places { places_of self.new ≡ places_of self.old }
    {
        stream.feed(alloc, bytes)?;
        while self.take_next(alloc, from, stream)? {}
        Ok(())
    }

    // The next frame is taken; false where no more is to be taken.
    fn take_next(
        &mut self,
        alloc: Global,
        from: Seat,
        stream: &mut Splitter,
    ) -> Result<bool, NoMemory>
        requires { IsSeat self.old from }
        ensures takes { IfOk result (λ more. (b : List ℕ) (s : RelayState) → HoldsWith from.number stream.old self.old b s
            → Takes more from.number stream.new self.new b s) }
        ensures shorter { IfOk result (λ more. IsTrue more → length stream.new.rest < length stream.old.rest) }
        ensures places { places_of self.new ≡ places_of self.old }
    {
        if self.outlets.is_closing(from.place) {
            return Ok(false);
        }
        match stream.peek() {
            Peeked::Frame(packet) => {
                self.counts.count_frame();
                self.pass(alloc, from, packet)?;
                stream.pass_frame();
                Ok(true)
            }
            Peeked::NotYet => Ok(false),
            Peeked::Broken => {
                self.close(from);
                Ok(false)
            }
        }
    }
}

//! Frames are given to connections.

ghost use Rattle.std.specs.Prelude.{◌≡◌, ℕ, List, IfOk, OnOk};
ghost use Rattle.spec_frames.specs.Frame.{IsAmsPacket, header_bytes};
ghost use Rattle.spec_machine.specs.Connection.{connection_of};
ghost use Rattle.spec_relay.specs.RelayState.{RelayState};
ghost use Rattle.spec_relay.specs.Routing.{given_to, has_room, framed, outcome_of_unknown, not_found_packet};
ghost use Rattle.ams_header.specs.Header.{ams_header_of};
ghost use Rattle.ams_relay.specs.Holds.{Holds};
ghost use Rattle.ams_relay.specs.Peers.{IsSeat, places_of};

use crate::router::Router;
use crate::seat::Seat;
use ads_base::NoMemory;
use ams_header::{AMS_HEADER, Header, NOTIFICATION, answer_of, put};
use return_codes::Code;
use std::alloc::Global;

impl Router {
    /// The frame of a packet is given to a connection; one that has no room for it is closing. Whether it had. The frame is
    /// from a connection that stands at the place `from`.
    pub(crate) fn give(
        &mut self,
        alloc: Global,
        to: Seat,
        from: usize,
        packet: &[u8],
    ) -> Result<bool, NoMemory>
        requires packet { IsAmsPacket packet.now }
        requires seat { IsSeat self.old to }
        ensures follows { IfOk result (λ fitted. (b : List ℕ) (s : RelayState) → Holds self.old b s
            → (fitted ≡ has_room (framed packet.now) (connection_of to.number s.connections)) × Holds self.new b (given_to to.number packet.now s)) }
        ensures places { places_of self.new ≡ places_of self.old }
    {
        if self.outlets.is_closing(to.place) {
            return Ok(false);
        }
        let header = frame_header(packet);
        let fitted = self.outlets.give_parts(alloc, to.place, &header, packet)?;
        if fitted {
            self.note_near(to.place, from);
            return Ok(true);
        }
        let owned = self.peers[to.place].owned;
        self.disown(owned);
        Ok(false)
    }

    // The next frame of the connection at a place is likely for the one at the other.
    fn note_near(&mut self, place: usize, near: usize)
        ensures { self.new ≡ record self.old { nears = self.new.nears } }
    {
        if let Some(it) = self.nears.get_mut(place) {
            *it = near;
        }
    }

    /// The target of a frame was not found: its sender is told so, where it has room; a notification is not answered.
    pub(crate) fn tell_unknown(
        &mut self,
        alloc: Global,
        from: Seat,
        h: &Header,
    ) -> Result<(), NoMemory>
        requires { IsSeat self.old from }
        ensures follows { OnOk result ((b : List ℕ) (s : RelayState) → Holds self.old b s
            → Holds self.new b (outcome_of_unknown from.number (ams_header_of h.now) s).after) }
        ensures places { places_of self.new ≡ places_of self.old }
    {
        self.counts.count_unknown();
        if h.command == NOTIFICATION {
            return Ok(());
        }
        let packet = not_found(h);
        let _ = self.give(alloc, from, from.place, packet.as_slice())?;
        Ok(())
    }
}

// What stands before an AMS packet.
fn frame_header(packet: &[u8]) -> [u8; 6]
    requires { IsAmsPacket packet.now }
    ensures { result ≡ header_bytes packet.now }
{
    let len = (packet.len() as u32).to_le_bytes();
    [0, 0, len[0], len[1], len[2], len[3]]
}

// The packet that tells a sender that the target machine was not found.
fn not_found(h: &Header) -> [u8; AMS_HEADER]
    ensures { result ≡ not_found_packet (ams_header_of h.now) }
{
    let mut packet = [0; AMS_HEADER];
    put(&answer_of(h, Code::C7.number(), 0), &mut packet);
    packet
}

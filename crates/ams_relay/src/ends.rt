//! Connections begin and end.

ghost use Rattle.std.specs.Prelude.{◌≡◌, ◌++◌, ◌∷◌, [], ℕ, List, OnOk, IfSome, IfNone};
ghost use Rattle.ads_outside.specs.declared.event.Event.TheVariants as event;
ghost use Rattle.spec_machine.specs.Connection.{connection_of, with_closing};
ghost use Rattle.spec_machine.specs.Moves.{with_gone};
ghost use Rattle.spec_machine.specs.MachineState.{after_exchange};
ghost use Rattle.spec_relay.specs.RelayState.{RelayState};
ghost use Rattle.spec_relay.specs.RelayMoves.{relay_after_event};
ghost use Rattle.spec_relay.specs.Routing.{at_connection};
ghost use Rattle.connections.specs.Entries.{IsEntry, IsNoEntry};
ghost use Rattle.connections.specs.Outlets.{fresh_outlet, without_number};
ghost use Rattle.ams_relay.specs.Holds.{Holds};
ghost use Rattle.ams_relay.specs.Peers.{IsSeat, places_of};
ghost use Rattle.ams_relay.specs.Relays.{StandsFor};
ghost use Rattle.ams_relay.specs.Taking.{Disowns};

use crate::Relay;
use crate::peer::Peer;
use crate::router::Router;
use crate::seat::Seat;
use ads_base::{NetId, NoMemory};
use ams_tcp::Splitter;
use connections::remove_at;
use std::alloc::Global;

impl Relay {
    /// A connection is opened; nothing changes where its number is there.
    pub(crate) fn open(&mut self, alloc: Global, number: u32) -> Result<(), NoMemory>
        ensures follows { OnOk result ((b : List ℕ) (s : RelayState) → StandsFor self.old b s → connection_of number s.connections ≡ None
            → StandsFor self.new b (relay_after_event s (event.Opened number))) }
        ensures failed { self.new.failed ≡ self.old.failed }
    {
        match self.router.outlets.place_of(number) {
            Some(_) => Ok(()),
            None => self.open_new(alloc, number),
        }
    }

    fn open_new(&mut self, alloc: Global, number: u32) -> Result<(), NoMemory>
        requires { IsNoEntry self.old.router.outlets number }
        ensures follows { OnOk result ((b : List ℕ) (s : RelayState) → StandsFor self.old b s → connection_of number s.connections ≡ None
            → StandsFor self.new b (relay_after_event s (event.Opened number))) }
        ensures failed { self.new.failed ≡ self.old.failed }
    {
        let stream = Splitter::new(alloc)?;
        self.streams.push(stream)?;
        self.router.open(alloc, number)
    }

    /// A connection is gone: it was closed, lost or shut.
    pub(crate) fn end(&mut self, number: u32)
        ensures follows { (b : List ℕ) (s : RelayState) → StandsFor self.old b s
            → StandsFor self.new b (after_exchange (connection_of number s.connections) with_gone s) }
        ensures failed { self.new.failed ≡ self.old.failed }
    {
        if let Some(place) = self.router.end(number) {
            remove_at(&mut self.streams, place);
        }
    }
}

impl Router {
    // A connection is opened behind the others.
    fn open(&mut self, alloc: Global, number: u32) -> Result<(), NoMemory>
        requires { IsNoEntry self.old.outlets number }
        ensures follows { OnOk result ((b : List ℕ) (s : RelayState) → Holds self.old b s → connection_of number s.connections ≡ None
            → Holds self.new b (relay_after_event s (event.Opened number))) }
        ensures outlets { OnOk result (self.new.outlets ≡ self.old.outlets ++ (number, fresh_outlet) ∷ []) }
    {
        self.outlets.open(alloc, number)?;
        self.peers.push(Peer::fresh(alloc))?;
        self.nears.push(0)?;
        self.counts.count_connection();
        Ok(())
    }

    // A connection is gone. Where it stood.
    fn end(&mut self, number: u32) -> Option<usize>
        ensures follows { (b : List ℕ) (s : RelayState) → Holds self.old b s
            → Holds self.new b (after_exchange (connection_of number s.connections) with_gone s) }
        ensures found { IfSome result (IsEntry self.old.outlets number) }
        ensures absent { IfNone result (IsNoEntry self.old.outlets number) }
        ensures gone { self.new.outlets ≡ without_number number self.old.outlets }
    {
        let Some(place) = self.outlets.place_of(number) else {
            return None;
        };
        let owned = self.owned_at(place);
        self.disown(owned);
        remove_at(&mut self.peers, place);
        remove_at(&mut self.nears, place);
        let _ = self.outlets.end(number);
        Some(place)
    }

    /// A connection is closing: nothing more is taken of it or given to it, and its NetId is free.
    pub(crate) fn close(&mut self, at: Seat)
        requires { IsSeat self.old at }
        ensures follows { (b : List ℕ) (s : RelayState) → Holds self.old b s → Holds self.new b (at_connection at.number with_closing s) }
        ensures places { places_of self.new ≡ places_of self.old }
    {
        if self.outlets.is_closing(at.place) {
            return;
        }
        self.outlets.close(at.place);
        let owned = self.peers[at.place].owned;
        self.disown(owned);
    }

    /// A NetId is free.
    pub(crate) fn disown(&mut self, owned: Option<NetId>)
        ensures { Disowns owned self.old self.new }
    {
        if let Some(net) = owned {
            let _ = self.owners.swap_remove(net.bytes.as_slice());
        }
    }
}

//! The requests that wait for a response, each in the queue of its asker.

ghost use Rattle.std.specs.Prelude.{◌≡◌, ◌<◌, ◌==◌, ◌++◌, ℕ, List, ◌∷◌, [], length, remove, position};
ghost use Rattle.std.specs.Prelude.{filter, slice_get, if◌then◌else◌, false, IsTrue, IfOk, IfSome, OnOk, Some};
ghost use Rattle.spec_formats.specs.Commands.{DEVICE_NOTIFICATION};
ghost use Rattle.ams_header.specs.Header.{ams_header_of};
ghost use Rattle.spec_relay.specs.RelayState.{RelayState, RelayConnection};
ghost use Rattle.spec_relay.specs.Requests.{is_answered_by, MAX_REQUESTS as MOST};
ghost use Rattle.spec_relay.specs.Routing.{with_request_of};
ghost use Rattle.ams_relay.specs.Asking.{request_of, with_room};
ghost use Rattle.ams_relay.specs.Holds.{Holds, owner_in};
ghost use Rattle.ams_relay.specs.Peers.{IsSeat, is_open, places_of};
ghost use Rattle.ams_relay.specs.Taking.{IsHeardAt, IsOpenedAt, IsSwept, Spends, SpendsAt, is_asked_heard, number_in};

use crate::asked::{Asked, asked_by};
use crate::peer::Peer;
use crate::router::Router;
use crate::seat::Seat;
use ads_base::NoMemory;
use ams_header::{Header, NOTIFICATION};
use std::alloc::Global;
use std::collections::VecDeque;

/// So many requests of one connection wait for their responses.
const MAX_REQUESTS: usize = 4096;

impl Router {
    /// The oldest request that a response of a connection answers waits no more: its asker.
    pub(crate) fn spend(&mut self, from: Seat, h: &Header) -> Option<Seat>
        ensures spends { (b : List ℕ) (s : RelayState) (k : RelayConnection) → Holds self.old b s → IsHeardAt from.number k s → IsSwept s
            → Spends (number_in result) from.number (ams_header_of h.now) self.new b s }
        ensures seat { IfSome result (IsSeat self.new) }
        ensures places { places_of self.new ≡ places_of self.old }
    {
        let Some(asker) = self.owner_near(self.near_of(from.place), h.target.net) else {
            return None;
        };
        if self.spend_of(asker, from.number, h) {
            Some(asker)
        } else {
            None
        }
    }

    // The same, of the owner of its target. Whether there was one.
    fn spend_of(&mut self, asker: Seat, conn: u32, h: &Header) -> bool
        requires { IsSeat self.old asker }
        ensures spends { (b : List ℕ) (s : RelayState) (k : RelayConnection) → Holds self.old b s → IsHeardAt conn k s → IsSwept s
            → owner_in h.now.target.net.bytes self.old.owners.entries ≡ Some asker.number
            → SpendsAt result asker.number conn (ams_header_of h.now) self.new b s }
        ensures places { places_of self.new ≡ places_of self.old }
    {
        let Some(at) = answered_at(&self.peers[asker.place].asked, conn, h) else {
            return false;
        };
        take_at(&mut self.peers[asker.place].asked, at);
        true
    }

    /// A request that was passed on waits for its response; a notification for none. Of one asker the last 4,096 wait.
    pub(crate) fn remember(
        &mut self,
        alloc: Global,
        from: Seat,
        target: u32,
        h: &Header,
    ) -> Result<(), NoMemory>
        requires { IsSeat self.old from }
        ensures follows { OnOk result ((b : List ℕ) (s : RelayState) (k : RelayConnection) → Holds self.old b s → IsHeardAt from.number k s → IsSwept s
            → k.client ≡ Some h.now.source.net.bytes → IsOpenedAt target s
            → Holds self.new b (with_request_of from.number target (ams_header_of h.now) s)) }
        ensures places { places_of self.new ≡ places_of self.old }
    {
        if h.command == NOTIFICATION {
            return Ok(());
        }
        if self.has_room(from.place) {
            return self.push_asked(from, target, h);
        }
        self.push_among_heard(alloc, from, target, h)
    }

    // Whether there is room for one more.
    fn has_room(&self, place: usize) -> bool
        requires { place < length self.now.peers.items }
        ensures { (p : Peer) → slice_get self.now.peers.items place ≡ Some p → IsTrue result → length p.asked.items < MOST }
    {
        self.peers[place].asked.len() < MAX_REQUESTS
    }

    fn push_asked(&mut self, from: Seat, target: u32, h: &Header) -> Result<(), NoMemory>
        requires { IsSeat self.old from }
        ensures follows { OnOk result ((b : List ℕ) (s : RelayState) (k : RelayConnection) → Holds self.old b s → IsHeardAt from.number k s → IsSwept s
            → k.client ≡ Some h.now.source.net.bytes → IsOpenedAt target s → (h.now.command == DEVICE_NOTIFICATION) ≡ false
            → ((p : Peer) → slice_get self.old.peers.items from.place ≡ Some p → length p.asked.items < MOST)
            → Holds self.new b (with_request_of from.number target (ams_header_of h.now) s)) }
        ensures places { places_of self.new ≡ places_of self.old }
    {
        self.peers[from.place].asked.push_back(asked_by(target, h))?;
        Ok(())
    }

    // Those of connections that are closing or gone are let go, and where that is not enough, the oldest.
    fn push_among_heard(
        &mut self,
        alloc: Global,
        from: Seat,
        target: u32,
        h: &Header,
    ) -> Result<(), NoMemory>
        requires { IsSeat self.old from }
        ensures follows { OnOk result ((b : List ℕ) (s : RelayState) (k : RelayConnection) → Holds self.old b s → IsHeardAt from.number k s → IsSwept s
            → k.client ≡ Some h.now.source.net.bytes → IsOpenedAt target s → (h.now.command == DEVICE_NOTIFICATION) ≡ false
            → Holds self.new b (with_request_of from.number target (ams_header_of h.now) s)) }
        ensures places { places_of self.new ≡ places_of self.old }
    {
        let mut kept = self.heard_of(alloc, &self.peers[from.place].asked)?;
        drop_oldest(&mut kept);
        kept.push_back(asked_by(target, h))?;
        self.peers[from.place].asked = kept;
        Ok(())
    }

    // Those of connections that are closing or gone are let go.
    fn heard_of(&self, alloc: Global, asked: &VecDeque<Asked>) -> Result<VecDeque<Asked>, NoMemory>
        ensures { IfOk result (λ kept. kept.items ≡ filter (is_asked_heard self.now.outlets) asked.now.items) }
    {
        let mut kept = VecDeque::new(alloc);
        for i in 0..asked.len() {
            self.keep_heard(asked[i], &mut kept)?;
        }
        Ok(kept)
    }

    // One more, where its asked is there and not closing.
    fn keep_heard(&self, a: Asked, kept: &mut VecDeque<Asked>) -> Result<(), NoMemory>
        ensures { OnOk result (kept.new.items
            ≡ (if is_asked_heard self.now.outlets a then kept.old.items ++ a ∷ [] else kept.old.items)) }
    {
        if !self.is_open(a.asked) {
            return Ok(());
        }
        kept.push_back(a)?;
        Ok(())
    }

    // Whether a connection is there and not closing.
    fn is_open(&self, number: u32) -> bool
        ensures { result ≡ is_open self.now.outlets number }
    {
        match self.outlets.place_of(number) {
            Some(place) => !self.outlets.is_closing(place),
            None => false,
        }
    }
}

// Where the oldest request stands that a response answers.
fn answered_at(asked: &VecDeque<Asked>, conn: u32, h: &Header) -> Option<usize>
    ensures { result ≡ position (λ a. is_answered_by conn (ams_header_of h.now) (request_of 0 a)) asked.now.items }
{
    asked.iter().position(|a| a.is_answered_by(conn, h))
}

// The request at a place waits no more.
fn take_at(asked: &mut VecDeque<Asked>, at: usize)
    ensures { at < length asked.old.items → asked.new.items ≡ remove asked.old.items at }
{
    let _ = asked.remove(at);
}

// Where there is no room for one more, the oldest waits no more.
fn drop_oldest(kept: &mut VecDeque<Asked>)
    ensures { kept.new.items ≡ with_room kept.old.items }
{
    if kept.len() >= MAX_REQUESTS {
        let _ = kept.pop_front();
    }
}

//! A wire with a router.

ghost use Rattle.std.specs.Prelude.{◌≡◌, ◌≤◌, ◌<◌, ◌^◌, ℕ, [], Some, None, length, nat_eq, IfOk, OnOk, OnErr};
ghost use Rattle.ads_outside.specs.Opened.{opened_by};
ghost use Rattle.ads_outside.specs.Rose.{raised};
ghost use Rattle.ads_outside.specs.WireAnswers.{Gives, Shuts, Starts, Takes, TakesRun};
ghost use Rattle.ads_outside.specs.WireState.{WireState};
ghost use Rattle.ads_outside.specs.declared.next.Next.TheVariants as next;
ghost use Rattle.indexmap.specs.IndexMap.{get, spare};
ghost use Rattle.local_router.specs.Heard.{heard, local_of};
ghost use Rattle.local_router.specs.Routes.{Hears, IfEvent, Routes, RoutesEvent, RoutesPiece, WaitsAfter, with_waiting};
ghost use Rattle.local_router.specs.Seen.{SameBeside, state_seen, wants_seen};

use crate::answers::answer;
use crate::{Local, Rest, answer_to};
use ads_base::{NetId, NoMemory, Octets};
use ads_outside::{Event, Next, Offer, Shut, Started, Wire};
use indexmap::IndexMap;
use std::alloc::Global;

/// The wire inside, which answers as the AMS router of a machine what a client asks before its first frame.
///
/// An event is given for each event of the wire inside: a piece with what is left of it, perhaps nothing. A connection that does
/// not take an answer whole at once is shut, and is given as closed. Without a router it is the wire inside.
#[derive(Drop)]
pub struct Routed<W: Wire + Drop> {
    pub wire: W,
    alloc: Global,
    net: Option<NetId>,
    // The bytes that wait on the connections that are open and have sent nothing for the server.
    waiting: IndexMap<u32, Octets>,
    events: u64,
    wants: u64,
}

impl<W: Wire + Drop> Routed<W> {
    /// A wire that was not used yet, with the router of the machine with this NetId; None for no router.
    pub fn new(alloc: Global, wire: W, net: Option<NetId>) -> Self
        ensures wire { result.wire ≡ wire }
        ensures net { result.net ≡ net }
        ensures waiting { (n : ℕ) → get nat_eq result.waiting n ≡ None }
        ensures events { result.events ≡ 0 }
        ensures wants { result.wants ≡ 0 }
    {
        Routed {
            wire,
            alloc,
            net,
            waiting: IndexMap::new(alloc),
            events: 0,
            wants: 0,
        }
    }
}

impl<W: Wire + Drop> Routed<W> {
    // Nothing waits on this connection any more.
    fn forget(&mut self, conn: u32)
        ensures waiting { (n : ℕ) → get nat_eq self.new.waiting n ≡ with_waiting conn None (get nat_eq self.old.waiting) n }
        ensures wire { self.new.wire ≡ self.old.wire }
        ensures net { self.new.net ≡ self.old.net }
        ensures events { self.new.events ≡ self.old.events }
        ensures wants { self.new.wants ≡ self.old.wants }
    {
        let _ = self.waiting.swap_remove(&conn);
    }

    // A connection begins, on which nothing waits yet.
    fn begin(&mut self, conn: u32)
        requires { 0 < spare self.old.waiting }
        ensures waiting { (n : ℕ) → get nat_eq self.new.waiting n ≡ with_waiting conn (Some []) (get nat_eq self.old.waiting) n }
        ensures wire { self.new.wire ≡ self.old.wire }
        ensures net { self.new.net ≡ self.old.net }
        ensures events { self.new.events ≡ self.old.events }
        ensures wants { self.new.wants ≡ self.old.wants }
    {
        let _ = self.waiting.insert(conn, Octets::new(self.alloc));
    }

    // Memory was wanting.
    fn want(&mut self) -> Next
        ensures memory { result ≡ Next.Memory }
        ensures wire { self.new.wire ≡ self.old.wire }
        ensures net { self.new.net ≡ self.old.net }
        ensures events { self.new.events ≡ self.old.events }
        ensures wants { self.new.wants ≡ raised self.old.wants }
        ensures later { self.old.wants ≤ self.new.wants }
    {
        self.wants = self.wants.saturating_add(1);
        Next::Memory
    }

    // What came behind what waited.
    fn hear(
        &mut self,
        net: NetId,
        conn: u32,
        waited: Octets,
        bytes: &[u8],
    ) -> Result<Event, NoMemory>
        ensures ok { IfOk result (Hears (local_of net.bytes (heard waited bytes.now)) conn
            (get nat_eq self.old.waiting) (get nat_eq self.new.waiting) (W.state self.old.wire).history (W.state self.new.wire).history) }
        ensures beside { SameBeside (W.state self.old.wire).history (W.state self.new.wire).history }
        ensures kept { W.kept self.new.wire ≡ W.kept self.old.wire }
        ensures later { (W.state self.old.wire).faults ≤ (W.state self.new.wire).faults }
        ensures wanted { (W.state self.old.wire).wants ≤ (W.state self.new.wire).wants }
        ensures net { self.new.net ≡ self.old.net }
        ensures events { self.new.events ≡ self.old.events }
        ensures wants { self.new.wants ≡ self.old.wants }
    {
        let local = answer_to(self.alloc, net, waited, bytes)?;
        self.deliver(conn, local)
    }

    // The answer goes to the connection, and the rest waits or goes to the server.
    fn deliver(&mut self, conn: u32, local: Local) -> Result<Event, NoMemory>
        ensures ok { IfOk result (Hears local conn
            (get nat_eq self.old.waiting) (get nat_eq self.new.waiting) (W.state self.old.wire).history (W.state self.new.wire).history) }
        ensures beside { SameBeside (W.state self.old.wire).history (W.state self.new.wire).history }
        ensures kept { W.kept self.new.wire ≡ W.kept self.old.wire }
        ensures later { (W.state self.old.wire).faults ≤ (W.state self.new.wire).faults }
        ensures wanted { (W.state self.old.wire).wants ≤ (W.state self.new.wire).wants }
        ensures net { self.new.net ≡ self.old.net }
        ensures events { self.new.events ≡ self.old.events }
        ensures wants { self.new.wants ≡ self.old.wants }
    {
        let Local { reply, rest } = local;
        if !answer(&mut self.wire, conn, reply.as_slice())? {
            return Ok(Event::Closed(conn));
        }
        match rest {
            Rest::Waits(text) => {
                self.waiting.insert(conn, text)?;
                Ok(Event::Piece(conn, Octets::new(self.alloc)))
            }
            Rest::Passes(left) => Ok(Event::Piece(conn, left)),
        }
    }

    // A piece came.
    fn piece(&mut self, net: NetId, conn: u32, bytes: Octets) -> Result<Event, NoMemory>
        ensures ok { IfOk result (RoutesPiece net.bytes conn bytes (get nat_eq self.old.waiting conn)
            (get nat_eq self.old.waiting) (get nat_eq self.new.waiting) (W.state self.old.wire).history (W.state self.new.wire).history) }
        ensures beside { SameBeside (W.state self.old.wire).history (W.state self.new.wire).history }
        ensures kept { W.kept self.new.wire ≡ W.kept self.old.wire }
        ensures later { (W.state self.old.wire).faults ≤ (W.state self.new.wire).faults }
        ensures wanted { (W.state self.old.wire).wants ≤ (W.state self.new.wire).wants }
        ensures net { self.new.net ≡ self.old.net }
        ensures events { self.new.events ≡ self.old.events }
        ensures wants { self.new.wants ≡ self.old.wants }
    {
        match self.waiting.swap_remove(&conn) {
            Some(waited) => self.hear(net, conn, waited, bytes.as_slice()),
            None => Ok(Event::Piece(conn, bytes)),
        }
    }

    // An event came.
    fn route(&mut self, net: NetId, event: Event) -> Result<Event, NoMemory>
        requires { 0 < spare self.old.waiting }
        ensures ok { IfOk result (RoutesEvent net.bytes event
            (get nat_eq self.old.waiting) (get nat_eq self.new.waiting) (W.state self.old.wire).history (W.state self.new.wire).history) }
        ensures beside { SameBeside (W.state self.old.wire).history (W.state self.new.wire).history }
        ensures opens_none { OnErr result (opened_by event ≡ []) }
        ensures kept { W.kept self.new.wire ≡ W.kept self.old.wire }
        ensures later { (W.state self.old.wire).faults ≤ (W.state self.new.wire).faults }
        ensures wanted { (W.state self.old.wire).wants ≤ (W.state self.new.wire).wants }
        ensures net { self.new.net ≡ self.old.net }
        ensures events { self.new.events ≡ self.old.events }
        ensures wants { self.new.wants ≡ self.old.wants }
    {
        match event {
            Event::Opened(conn) => {
                self.begin(conn);
                Ok(Event::Opened(conn))
            }
            Event::Piece(conn, bytes) => self.piece(net, conn, bytes),
            Event::Closed(conn) => {
                self.forget(conn);
                Ok(Event::Closed(conn))
            }
            Event::Tick(moment) => Ok(Event::Tick(moment)),
            Event::Reload(text) => Ok(Event::Reload(text)),
            Event::Writable(conn) => Ok(Event::Writable(conn)),
        }
    }

    // There is room for a connection that begins.
    fn make_room(&mut self) -> Result<(), NoMemory>
        ensures room { OnOk result (0 < spare self.new.waiting) }
        ensures waiting { (n : ℕ) → get nat_eq self.new.waiting n ≡ get nat_eq self.old.waiting n }
        ensures wire { self.new.wire ≡ self.old.wire }
        ensures net { self.new.net ≡ self.old.net }
        ensures events { self.new.events ≡ self.old.events }
        ensures wants { self.new.wants ≡ self.old.wants }
    {
        self.waiting.reserve(1)?;
        Ok(())
    }

    // What is given for an event that came.
    fn give(&mut self, net: NetId, event: Event) -> Next
        requires room { 0 < spare self.old.waiting }
        requires is_on { self.old.net ≡ Some net }
        ensures gives { (old : WireState) → Gives (next.Event event) old (W.state self.old.wire) → old.wants ≤ (W.state self.old.wire).wants
            → Gives result (state_seen self.old.net self.old.events self.old.wants old)
            (state_seen self.new.net self.new.events self.new.wants (W.state self.new.wire)) }
        ensures routes { IfEvent result (RoutesEvent net.bytes event (get nat_eq self.old.waiting) (get nat_eq self.new.waiting)
            (W.state self.old.wire).history (W.state self.new.wire).history) }
        ensures kept { W.kept self.new.wire ≡ W.kept self.old.wire }
        ensures later { (W.state self.old.wire).faults ≤ (W.state self.new.wire).faults }
        ensures wanted { (W.state self.old.wire).wants ≤ (W.state self.new.wire).wants }
        ensures own { self.old.wants ≤ self.new.wants }
        ensures net { self.new.net ≡ self.old.net }
    {
        match self.route(net, event) {
            Ok(given) => {
                self.events = self.events.saturating_add(1);
                Next::Event(given)
            }
            Err(NoMemory) => self.want(),
        }
    }

    // The next event, made of the next event of the wire inside.
    fn next_routed(&mut self, net: NetId) -> Next
        requires { self.old.net ≡ Some net }
        ensures gives { Gives result (state_seen self.old.net self.old.events self.old.wants (W.state self.old.wire))
            (state_seen self.new.net self.new.events self.new.wants (W.state self.new.wire)) }
        ensures routes { IfEvent result (Routes net.bytes (get nat_eq self.old.waiting) (get nat_eq self.new.waiting)
            (W.state self.old.wire).history (W.state self.new.wire).history) }
        ensures kept { W.kept self.new.wire ≡ W.kept self.old.wire }
        ensures later { (W.state self.old.wire).faults ≤ (W.state self.new.wire).faults }
        ensures wanted { wants_seen self.old.net self.old.wants (W.state self.old.wire).wants
            ≤ wants_seen self.new.net self.new.wants (W.state self.new.wire).wants }
        ensures net { self.new.net ≡ self.old.net }
    {
        if self.make_room().is_err() {
            return self.want();
        }
        match self.wire.next() {
            Next::Event(event) => self.give(net, event),
            Next::End => Next::End,
            Next::Failed => Next::Failed,
            Next::Memory => Next::Memory,
        }
    }

    // Nothing waits any more on a connection that is lost.
    fn forget_lost(&mut self, conn: u32, answer: Offer)
        ensures waiting { WaitsAfter answer conn (get nat_eq self.old.waiting) (get nat_eq self.new.waiting) }
        ensures wire { self.new.wire ≡ self.old.wire }
        ensures net { self.new.net ≡ self.old.net }
        ensures events { self.new.events ≡ self.old.events }
        ensures wants { self.new.wants ≡ self.old.wants }
    {
        match answer {
            Offer::Failed => self.forget(conn),
            Offer::Took(_) | Offer::Memory => {}
        }
    }
}

impl<W: Wire + Drop> Wire for Routed<W> {
    ghost use Rattle.std.specs.Prelude.{IfSome};

    ghost state = { λ w. state_seen w.net w.events w.wants (W.state w.wire) };

    ghost Kept = { W.Kept };

    ghost kept = { λ w. W.kept w.wire };

    fn faults(&self) -> u64 {
        self.wire.faults()
    }

    fn stops(&self) -> u64 {
        self.wire.stops()
    }

    #[tactic(auto, using(crate::proofs::SeenLemmas::starts_seen, crate::proofs::SeenLemmas::wants_later))]
    fn start(&mut self, listen: &str, name: &str, first: &[u8]) -> Started
        ensures starts { Starts result (state_seen self.old.net self.old.events self.old.wants (W.state self.old.wire))
            (state_seen self.new.net self.new.events self.new.wants (W.state self.new.wire))
            (record { listen = listen.now; name = name.now; first = first.now }) }
        ensures kept { W.kept self.new.wire ≡ W.kept self.old.wire }
        ensures later { (W.state self.old.wire).faults ≤ (W.state self.new.wire).faults }
        ensures wanted { wants_seen self.old.net self.old.wants (W.state self.old.wire).wants
            ≤ wants_seen self.new.net self.new.wants (W.state self.new.wire).wants }
        ensures inside { Starts result (W.state self.old.wire) (W.state self.new.wire)
            (record { listen = listen.now; name = name.now; first = first.now }) }
        ensures waiting { self.new.waiting ≡ self.old.waiting }
        ensures net { self.new.net ≡ self.old.net }
    {
        self.wire.start(listen, name, first)
    }

    fn next(&mut self) -> Next
        ensures gives { Gives result (state_seen self.old.net self.old.events self.old.wants (W.state self.old.wire))
            (state_seen self.new.net self.new.events self.new.wants (W.state self.new.wire)) }
        ensures kept { W.kept self.new.wire ≡ W.kept self.old.wire }
        ensures later { (W.state self.old.wire).faults ≤ (W.state self.new.wire).faults }
        ensures wanted { wants_seen self.old.net self.old.wants (W.state self.old.wire).wants
            ≤ wants_seen self.new.net self.new.wants (W.state self.new.wire).wants }
        ensures routes { IfSome self.old.net (λ net. IfEvent result (Routes net.bytes (get nat_eq self.old.waiting) (get nat_eq self.new.waiting)
            (W.state self.old.wire).history (W.state self.new.wire).history)) }
        ensures without { self.old.net ≡ None → Gives result (W.state self.old.wire) (W.state self.new.wire) }
        ensures net { self.new.net ≡ self.old.net }
    {
        match self.net {
            None => self.wire.next(),
            Some(net) => self.next_routed(net),
        }
    }

    fn take_back(&mut self, event: Event) {
        self.wire.take_back(event);
    }

    #[tactic(auto, using(crate::proofs::SeenLemmas::takes_seen, crate::proofs::SeenLemmas::wants_later))]
    fn offer(&mut self, conn: u32, bytes: &[u8]) -> Offer
        requires { length bytes.now < 2 ^ 32 }
        ensures takes { Takes result (state_seen self.old.net self.old.events self.old.wants (W.state self.old.wire))
            (state_seen self.new.net self.new.events self.new.wants (W.state self.new.wire)) conn bytes.now }
        ensures kept { W.kept self.new.wire ≡ W.kept self.old.wire }
        ensures later { (W.state self.old.wire).faults ≤ (W.state self.new.wire).faults }
        ensures wanted { wants_seen self.old.net self.old.wants (W.state self.old.wire).wants
            ≤ wants_seen self.new.net self.new.wants (W.state self.new.wire).wants }
        ensures inside { Takes result (W.state self.old.wire) (W.state self.new.wire) conn bytes.now }
        ensures waiting { WaitsAfter result conn (get nat_eq self.old.waiting) (get nat_eq self.new.waiting) }
        ensures net { self.new.net ≡ self.old.net }
    {
        let answer = self.wire.offer(conn, bytes);
        self.forget_lost(conn, answer);
        answer
    }

    #[tactic(auto, using(crate::proofs::SeenLemmas::takes_run_seen, crate::proofs::SeenLemmas::wants_later))]
    fn offer_run(&mut self, conn: u32, run: &[u8]) -> bool
        requires { length run.now < 2 ^ 32 }
        ensures takes { TakesRun result (state_seen self.old.net self.old.events self.old.wants (W.state self.old.wire))
            (state_seen self.new.net self.new.events self.new.wants (W.state self.new.wire)) conn run.now }
        ensures kept { W.kept self.new.wire ≡ W.kept self.old.wire }
        ensures later { (W.state self.old.wire).faults ≤ (W.state self.new.wire).faults }
        ensures wanted { wants_seen self.old.net self.old.wants (W.state self.old.wire).wants
            ≤ wants_seen self.new.net self.new.wants (W.state self.new.wire).wants }
        ensures inside { TakesRun result (W.state self.old.wire) (W.state self.new.wire) conn run.now }
        ensures waiting { self.new.waiting ≡ self.old.waiting }
        ensures net { self.new.net ≡ self.old.net }
    {
        self.wire.offer_run(conn, run)
    }

    #[tactic(auto, using(crate::proofs::SeenLemmas::shuts_seen, crate::proofs::SeenLemmas::wants_later))]
    fn shut(&mut self, conn: u32) -> Shut
        ensures shuts { Shuts result (state_seen self.old.net self.old.events self.old.wants (W.state self.old.wire))
            (state_seen self.new.net self.new.events self.new.wants (W.state self.new.wire)) conn }
        ensures kept { W.kept self.new.wire ≡ W.kept self.old.wire }
        ensures later { (W.state self.old.wire).faults ≤ (W.state self.new.wire).faults }
        ensures wanted { wants_seen self.old.net self.old.wants (W.state self.old.wire).wants
            ≤ wants_seen self.new.net self.new.wants (W.state self.new.wire).wants }
        ensures inside { Shuts result (W.state self.old.wire) (W.state self.new.wire) conn }
        ensures waiting { (n : ℕ) → get nat_eq self.new.waiting n ≡ with_waiting conn None (get nat_eq self.old.waiting) n }
        ensures net { self.new.net ≡ self.old.net }
    {
        self.forget(conn);
        self.wire.shut(conn)
    }
}

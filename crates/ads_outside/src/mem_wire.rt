//! A wire in memory, for tests.

ghost use Rattle.std.specs.Prelude.{◌≡◌, ◌≢◌, ◌≤◌, ◌<◌, ◌^◌, ◌+◌, ◌∷◌, [], ◌++◌, length, take, slice_get, IsTrue, IfOk, OnOk, OnErr};

use crate::{Event, Failing, Listening, Log, Move, Next, Offer, Shut, Started, Wire};
use ads_base::{Calls, ListOf, NoMemory, Octets};
use std::alloc::Global;
use std::marker::Model;

/// Events in order.
pub type Events = ListOf<Event>;

/// How many bytes offers take at most.
pub type Cuts = ListOf<u32>;

/// Gives events one after another, and writes the log. Calls with given numbers fail, and the n-th offer takes at
/// most the n-th number of bytes; offers past these numbers take all.
#[derive(Drop)]
pub struct MemWire {
    alloc: Global,
    events: Events,
    given: usize,
    log: Log,
    starts: ListOf<Listening>,
    failing: Failing,
    cuts: Cuts,
    offers: u64,
    counted: u64,
    ends: u64,
    stops: u64,
    wants: u64,
}

impl Model for MemWire {
    ghost use Rattle.std.specs.Prelude.{IsTrue};
    ghost use Rattle.std.specs.Prelude.{drop};
    ghost use Rattle.ads_outside.specs.MemWire.{HeldWire};
    ghost use Rattle.ads_outside.specs.Opened.{opened_in, are_new};

    ghost Value = { HeldWire };

    ghost view = { λ m. record {
      events = m.events;
      given = m.given;
      log = m.log;
      starts = m.starts;
      failing = m.failing;
      cuts = m.cuts;
      offers = m.offers;
      counted = m.counted;
      ends = m.ends;
      stops = m.stops;
      wants = m.wants;
    } };

    ghost invariant = { λ m. IsTrue (are_new (drop m.given m.events) (opened_in m.log)) };
}

impl MemWire {
    ghost use Rattle.ads_outside.specs.MemWire.{unused_wire, taken_at_most};
    ghost use Rattle.ads_outside.specs.Opened.{are_new};

    /// A wire that gives these events, of which no two open one number. The calls with these numbers, counted from 1
    /// over `start`, `next`, `offer` and `shut`, fail, but `shut` never does.
    pub fn new(alloc: Global, events: Events, fails: Calls, cuts: Cuts) -> MemWire
        requires { IsTrue (are_new events []) }
        ensures { result ≡ unused_wire events fails cuts }
    {
        MemWire {
            alloc,
            events,
            given: 0,
            log: Log::new(alloc),
            starts: ListOf::new(alloc),
            failing: Failing::new(fails),
            cuts,
            offers: 0,
            counted: 0,
            ends: 0,
            stops: 0,
            wants: 0,
        }
    }

    /// What happened, in order.
    pub fn log(&self) -> &Log
        ensures { result.now ≡ self.now.log }
    {
        &self.log
    }

    // How many of so many bytes the next offer takes.
    fn taken(&self, len: u32) -> u32
        ensures { result ≡ taken_at_most (slice_get self.now.cuts self.now.offers) len }
    {
        match self.cuts.as_slice().get(self.offers as usize) {
            Some(cut) => (*cut).min(len),
            None => len,
        }
    }
}

impl MemWire {
    ghost use Rattle.std.specs.Prelude.{IfSome};
    ghost use Rattle.ads_outside.specs.Opened.{is_new, opened_in, opened_by_move};
    ghost use Rattle.ads_outside.specs.MemWire.{given_to, takes_all, after_run};
    ghost use Rattle.ads_outside.specs.FailingCalls.{called, faulted};
    ghost use Rattle.ads_outside.specs.Rose.{raised};
    ghost use Rattle.ads_outside.specs.Streams.{grown, none_taken, streams_after, streams_after_move};
    ghost use Rattle.ads_outside.specs.declared.moves.Move.TheVariants as move;

    // What it is started with.
    fn note(&mut self, listen: &str, name: &str, first: &[u8]) -> Result<(), NoMemory>
        ensures ok { OnOk result (self.new ≡ record self.old {
          starts = self.old.starts ++ record { listen = listen.now; name = name.now; first = first.now } ∷ [];
        }) }
        ensures no_memory { OnErr result (self.new ≡ self.old) }
    {
        let start = listening(self.alloc, listen, name, first)?;
        self.starts.push(self.alloc, start)?;
        Ok(())
    }

    // The next event, if there is one.
    #[tactic(auto, using(crate::proofs::WireLemmas::given_is_new, crate::proofs::WireLemmas::left_are_new, crate::proofs::StreamLemmas::streams_more))]
    fn give(&mut self) -> Result<Option<Event>, NoMemory>
        ensures event { IfOk result (λ event. event ≡ slice_get self.old.events self.old.given) }
        ensures given { IfOk result (λ event. self.new ≡ given_to event self.old) }
        ensures is_new { IfOk result (λ event. IfSome event (λ e. IsTrue (is_new e (opened_in self.old.log)))) }
        ensures streams { IfOk result (λ event. streams_after none_taken self.new.log ≡ streams_after none_taken self.old.log) }
        ensures no_memory { OnErr result (self.new ≡ self.old) }
    {
        let Some(event) = self.peek()? else {
            return Ok(None);
        };
        let entry = Move::Event(event.copy(self.alloc)?);
        self.log.push(self.alloc, entry)?;
        self.given += 1;
        Ok(Some(event))
    }

    // A copy of the next event, if there is one.
    fn peek(&self) -> Result<Option<Event>, NoMemory>
        ensures event { IfOk result (λ event. event ≡ slice_get self.now.events self.now.given) }
        ensures small { IfOk result (λ event. IfSome event (λ e. self.now.given + 1 < 2 ^ 64)) }
    {
        let Some(event) = self.events.as_slice().get(self.given) else {
            return Ok(None);
        };
        match event.copy(self.alloc) {
            Ok(event) => Ok(Some(event)),
            Err(e) => Err(e),
        }
    }

    // A move that is no event.
    #[tactic(auto, using(crate::proofs::StreamLemmas::streams_more))]
    fn put(&mut self, entry: Move) -> Result<(), NoMemory>
        requires { opened_by_move entry ≡ [] }
        ensures ok { OnOk result (self.new ≡ record self.old { log = self.old.log ++ entry ∷ [] }) }
        ensures streams { OnOk result (streams_after none_taken self.new.log ≡ streams_after_move (streams_after none_taken self.old.log) entry) }
        ensures no_memory { OnErr result (self.new ≡ self.old) }
    {
        self.log.push(self.alloc, entry)?;
        Ok(())
    }

    // An offer of which so many bytes are taken.
    fn put_taken(&mut self, conn: u32, bytes: &[u8], n: u32) -> Result<(), NoMemory>
        requires small { length bytes.now < 2 ^ 32 }
        requires within { n ≤ length bytes.now }
        ensures ok { OnOk result (self.new ≡ record self.old { log = self.old.log ++ move.Took conn (length bytes.now) (take n bytes.now) ∷ [] }) }
        ensures streams { OnOk result (streams_after none_taken self.new.log ≡ grown conn (take n bytes.now) (streams_after none_taken self.old.log)) }
        ensures no_memory { OnErr result (self.new ≡ self.old) }
    {
        let taken = Octets::copy_of(self.alloc, &bytes[..n as usize])?;
        self.put(Move::Took(conn, bytes.len() as u32, taken))?;
        Ok(())
    }

    /// A run of bytes is taken whole, as one offer, where each offer is from here on and no call fails; false where not, or where
    /// memory is wanting: then nothing has changed. It counts as no call.
    pub(crate) fn take_run(&mut self, conn: u32, run: &[u8]) -> bool
        requires { length run.now < 2 ^ 32 }
        ensures all { IsTrue result → IsTrue (takes_all self.old) }
        ensures logged { self.new ≡ after_run result self.old conn run.now }
    {
        if self.failing.fails_later() || self.offers < self.cuts.as_slice().len() as u64 {
            return false;
        }
        self.put_taken(conn, run, run.len() as u32).is_ok()
    }

    // Memory was wanting in a call.
    fn want(&mut self)
        ensures wanted { self.new ≡ record self.old { failing = called self.old.failing; wants = raised self.old.wants } }
        ensures later { self.old.wants ≤ self.new.wants }
    {
        self.failing.call();
        self.wants = self.wants.saturating_add(1);
    }

    // One more call failed, and it was one of `start` or `next`.
    fn stop(&mut self)
        ensures stopped { self.new ≡ record self.old { failing = faulted self.old.failing; stops = raised self.old.stops } }
        ensures later { self.old.failing.faults ≤ self.new.failing.faults }
    {
        self.failing.fault();
        self.stops = self.stops.saturating_add(1);
    }
}

// What a wire is started with.
fn listening(alloc: Global, listen: &str, name: &str, first: &[u8]) -> Result<Listening, NoMemory>
    ensures { IfOk result (λ a. a ≡ record { listen = listen.now; name = name.now; first = first.now }) }
{
    Ok(Listening {
        listen: Octets::copy_of(alloc, listen.as_bytes())?,
        name: Octets::copy_of(alloc, name.as_bytes())?,
        first: Octets::copy_of(alloc, first)?,
    })
}

impl Wire for MemWire {
    ghost use Rattle.std.specs.Prelude.{List};
    ghost use Rattle.ads_outside.specs.declared.event.Event.{Event as EventOf};
    ghost use Rattle.ads_outside.specs.WireAnswers.{Starts, Gives, Takes, Shuts};
    ghost use Rattle.ads_outside.specs.MemWire.{state_of_held, started_of, next_of, offer_of};
    ghost use Rattle.ads_outside.specs.MemWire.{after_start, after_next, after_offer, after_shut};

    ghost state = { state_of_held };

    ghost Kept = { List EventOf };

    ghost kept = { λ w. w.events };

    fn faults(&self) -> u64 {
        self.failing.faults()
    }

    fn stops(&self) -> u64 {
        self.stops
    }

    fn start(&mut self, listen: &str, name: &str, first: &[u8]) -> Started
        ensures starts { Starts result (state_of_held self.old) (state_of_held self.new)
            (record { listen = listen.now; name = name.now; first = first.now }) }
        ensures kept { self.new.events ≡ self.old.events }
        ensures later { self.old.failing.faults ≤ self.new.failing.faults }
        ensures wanted { self.old.wants ≤ self.new.wants }
        ensures answer { result ≢ Started.Memory → result ≡ started_of self.old }
        ensures counted { self.new ≡ after_start result self.old (record { listen = listen.now; name = name.now; first = first.now }) }
    {
        if self.note(listen, name, first).is_err() {
            self.want();
            return Started::Memory;
        }
        if self.failing.fails_next() {
            self.stop();
            return Started::Failed;
        }
        self.failing.call();
        Started::Ready
    }

    fn next(&mut self) -> Next
        ensures gives { Gives result (state_of_held self.old) (state_of_held self.new) }
        ensures kept { self.new.events ≡ self.old.events }
        ensures later { self.old.failing.faults ≤ self.new.failing.faults }
        ensures wanted { self.old.wants ≤ self.new.wants }
        ensures answer { result ≢ Next.Memory → result ≡ next_of self.old }
        ensures counted { self.new ≡ after_next result self.old }
    {
        if self.failing.fails_next() {
            self.stop();
            return Next::Failed;
        }
        match self.give() {
            Ok(Some(event)) => {
                self.failing.call();
                self.counted = self.counted.saturating_add(1);
                Next::Event(event)
            }
            Ok(None) => {
                self.failing.call();
                self.ends = self.ends.saturating_add(1);
                Next::End
            }
            Err(NoMemory) => {
                self.want();
                Next::Memory
            }
        }
    }

    fn offer(&mut self, conn: u32, bytes: &[u8]) -> Offer
        requires { length bytes.now < 2 ^ 32 }
        ensures takes { Takes result (state_of_held self.old) (state_of_held self.new) conn bytes.now }
        ensures kept { self.new.events ≡ self.old.events }
        ensures later { self.old.failing.faults ≤ self.new.failing.faults }
        ensures wanted { self.old.wants ≤ self.new.wants }
        ensures answer { result ≢ Offer.Memory → result ≡ offer_of self.old bytes.now }
        ensures counted { self.new ≡ after_offer result self.old conn bytes.now }
    {
        let taken = self.taken(bytes.len() as u32);
        let fails = self.failing.fails_next();
        let put = if fails {
            self.put(Move::Lost(conn))
        } else {
            self.put_taken(conn, bytes, taken)
        };
        if put.is_err() {
            self.want();
            return Offer::Memory;
        }
        self.offers = self.offers.saturating_add(1);
        if fails {
            self.failing.fault();
            return Offer::Failed;
        }
        self.failing.call();
        Offer::Took(taken)
    }

    fn shut(&mut self, conn: u32) -> Shut
        ensures shuts { Shuts result (state_of_held self.old) (state_of_held self.new) conn }
        ensures kept { self.new.events ≡ self.old.events }
        ensures later { self.old.failing.faults ≤ self.new.failing.faults }
        ensures wanted { self.old.wants ≤ self.new.wants }
        ensures answer { result ≢ Shut.Memory → result ≡ Shut.Done }
        ensures counted { self.new ≡ after_shut result self.old conn }
    {
        match self.put(Move::Shut(conn)) {
            Ok(()) => {
                self.failing.call();
                Shut::Done
            }
            Err(NoMemory) => {
                self.want();
                Shut::Memory
            }
        }
    }
}

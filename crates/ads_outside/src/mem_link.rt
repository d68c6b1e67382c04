//! A link in memory, for tests.

ghost use Rattle.std.specs.Prelude.{◌≡◌, ◌≢◌, ◌≤◌, ◌<◌, ◌^◌, ◌+◌, ◌∷◌, [], ◌++◌, length, take, drop, slice_get, if◌then◌else◌, IfOk, OnOk, OnErr, List};
ghost use Rattle.ads_outside.specs.MemLink.{moment_of, piece_of, received_as, size_of, bytes_in, Fits};
ghost use Rattle.ads_outside.specs.declared.received.Received.TheVariants as received;

use crate::{
    Connected, Failing, Link, LinkCounts, LinkEvent, LinkEvents, LinkLog, LinkMove, Received, Sent,
};
use ads_base::{Calls, NoMemory, Octets};
use std::alloc::Global;
use std::marker::Model;

/// Gives what comes in order, bytes as far as the buffer takes them, and writes the log. Calls with given numbers
/// fail.
#[derive(Drop)]
pub struct MemLink {
    alloc: Global,
    events: LinkEvents,
    given: usize,
    used: usize,
    log: LinkLog,
    sent: Octets,
    counts: LinkCounts,
    failing: Failing,
}

impl Model for MemLink {
    ghost use Rattle.std.specs.Prelude.{◌≡◌};
    ghost use Rattle.ads_outside.specs.MemLink.{HeldLink, sent_in};

    ghost Value = { HeldLink };

    ghost view = { λ m. record {
      events = m.events;
      given = m.given;
      used = m.used;
      log = m.log;
      history = m.counts;
      failing = m.failing;
    } };

    ghost invariant = { λ m. m.sent ≡ sent_in m.log };
}

impl MemLink {
    ghost use Rattle.ads_outside.specs.MemLink.{unused_link, sent_in, sent_by_move, next_moment, coming};

    /// A link to which this comes. The calls with these numbers, counted from 1 over `connect`, `send` and `recv`,
    /// fail, and then send nothing. Behind the last event the peer has closed the connection; a moment that falls is
    /// answered as the last one, and no bytes as nothing that came.
    pub fn new(alloc: Global, events: LinkEvents, fails: Calls) -> MemLink
        ensures { result ≡ unused_link events fails }
    {
        MemLink {
            alloc,
            events,
            given: 0,
            used: 0,
            log: LinkLog::new(alloc),
            sent: Octets::new(alloc),
            counts: LinkCounts::new(),
            failing: Failing::new(fails),
        }
    }

    /// All bytes that were sent.
    pub fn sent(&self) -> &[u8]
        ensures { result.now ≡ sent_in self.now.log }
    {
        self.sent.as_slice()
    }

    /// What happened, in order.
    pub fn log(&self) -> &[LinkMove]
        ensures { result.now ≡ self.now.log }
    {
        self.log.as_slice()
    }

    // The moment of what comes next, or the last one.
    fn next_moment(&self) -> u64
        ensures { result ≡ next_moment self.now }
    {
        match self.events.as_slice().get(self.given) {
            Some(event) => self.counts.moment().max(moment_of(event)),
            None => self.counts.moment(),
        }
    }

    // What comes next into a buffer of this size.
    fn coming(&self, size: usize) -> Result<LinkEvent, NoMemory>
        requires { 0 < size }
        ensures event { IfOk result (λ event. event ≡ coming self.now size) }
        ensures fits { IfOk result (λ event. Fits event size) }
        ensures later { IfOk result (λ event. self.now.history.moment ≤ moment_of event) }
    {
        let now = self.next_moment();
        match self.events.as_slice().get(self.given) {
            Some(LinkEvent::Bytes(bytes, _)) => {
                piece_of(self.alloc, behind(bytes.as_slice(), self.used), now, size)
            }
            Some(LinkEvent::Quiet(_)) => Ok(LinkEvent::Quiet(now)),
            Some(LinkEvent::Closed(_)) => Ok(LinkEvent::Closed(now)),
            None => Ok(LinkEvent::Closed(now)),
        }
    }
}

fn moment_of(event: &LinkEvent) -> u64
    ensures { result ≡ moment_of event.now }
{
    match event {
        LinkEvent::Bytes(_, now) => *now,
        LinkEvent::Quiet(now) => *now,
        LinkEvent::Closed(now) => *now,
    }
}

// What is left behind the first so many bytes.
fn behind(bytes: &[u8], used: usize) -> &[u8]
    ensures { result.now ≡ drop used bytes.now }
{
    if used < bytes.len() {
        &bytes[used..]
    } else {
        &bytes[bytes.len()..]
    }
}

// Of the bytes that are left as many as a buffer of this size takes.
fn piece_of(alloc: Global, left: &[u8], now: u64, size: usize) -> Result<LinkEvent, NoMemory>
    requires { 0 < size }
    ensures piece { IfOk result (λ event. event ≡ piece_of left.now now size) }
    ensures fits { IfOk result (λ event. Fits event size) }
    ensures moment { IfOk result (λ event. moment_of event ≡ now) }
{
    let n = left.len().min(size).min(4_294_967_295);
    if n == 0 {
        return Ok(LinkEvent::Quiet(now));
    }
    let bytes = Octets::copy_of(alloc, &left[..n])?;
    Ok(LinkEvent::Bytes(bytes, now))
}

// The bytes of what comes are written into a buffer.
fn fill(event: &LinkEvent, buf: &mut [u8]) -> Received
    requires { Fits event.now (length buf.old) }
    ensures answer { result ≡ received_as event.now }
    ensures filled { take (size_of event.now) buf.new ≡ bytes_in event.now }
{
    match event {
        LinkEvent::Bytes(bytes, now) => {
            let n = bytes.len();
            buf[..n].copy_from_slice(bytes.as_slice());
            Received::Bytes(n as u32, *now)
        }
        LinkEvent::Quiet(now) => Received::Quiet(*now),
        LinkEvent::Closed(now) => Received::Closed(*now),
    }
}

impl MemLink {
    ghost use Rattle.ads_outside.specs.MemLink.{sent_by_move, coming, place_after, at_place, after_coming, history_after};
    ghost use Rattle.ads_outside.specs.declared.link_move.LinkMove.TheVariants as move;

    // A move that sends nothing.
    #[tactic(auto, using(crate::proofs::LinkLemmas::still_sent))]
    fn note(&mut self, entry: LinkMove) -> Result<(), NoMemory>
        requires { sent_by_move entry ≡ [] }
        ensures ok { OnOk result (self.new ≡ record self.old { log = self.old.log ++ entry ∷ [] }) }
        ensures no_memory { OnErr result (self.new ≡ self.old) }
    {
        self.log.push(self.alloc, entry)?;
        Ok(())
    }

    // The address of a connection, and the moment that it answers unless it fails.
    fn note_connect(&mut self, to: &str, fails: bool, now: u64) -> Result<(), NoMemory>
        ensures ok { OnOk result (self.new ≡ record self.old {
          log = self.old.log ++ (if fails then move.Refused to.now else move.Connected to.now now) ∷ [];
        }) }
        ensures no_memory { OnErr result (self.new ≡ self.old) }
    {
        let to = Octets::copy_of(self.alloc, to.as_bytes())?;
        if fails {
            self.note(LinkMove::Refused(to))?;
            return Ok(());
        }
        self.note(LinkMove::Connected(to, now))?;
        Ok(())
    }

    // Bytes that are sent.
    #[tactic(auto, using(crate::proofs::LinkLemmas::more_sent))]
    fn note_sent(&mut self, bytes: &[u8]) -> Result<(), NoMemory>
        ensures ok { OnOk result (self.new ≡ record self.old { log = self.old.log ++ move.Sent bytes.now ∷ [] }) }
        ensures no_memory { OnErr result (self.new ≡ self.old) }
    {
        let entry = Octets::copy_of(self.alloc, bytes)?;
        let before = self.sent.len();
        self.sent.put(self.alloc, bytes)?;
        let noted = self.log.push(self.alloc, LinkMove::Sent(entry));
        self.sent.cut_back(before, noted)
    }

    // So many bytes of what comes next, or all else of it, came.
    fn pass(&mut self, n: usize)
        ensures { self.new ≡ at_place (place_after (slice_get self.old.events self.old.given) self.old.given self.old.used n) self.old }
    {
        match self.events.as_slice().get(self.given) {
            Some(LinkEvent::Bytes(bytes, _)) => {
                if n < behind(bytes.as_slice(), self.used).len() {
                    self.used += n;
                } else {
                    self.given += 1;
                    self.used = 0;
                }
            }
            Some(LinkEvent::Quiet(_)) | Some(LinkEvent::Closed(_)) => {
                self.given += 1;
                self.used = 0;
            }
            None => {}
        }
    }

    // An answer is counted.
    fn count(&mut self, event: &LinkEvent)
        ensures { self.new ≡ record self.old { history = history_after self.old.history event.now } }
    {
        match event {
            LinkEvent::Bytes(_, now) => self.counts.bytes(*now),
            LinkEvent::Quiet(now) => self.counts.quiet(*now),
            LinkEvent::Closed(now) => self.counts.close(*now),
        }
    }
}

impl MemLink {
    ghost use Rattle.ads_outside.specs.LinkAnswers.{Receives, log_after_recv};
    ghost use Rattle.ads_outside.specs.MemLink.{coming, after_coming, state_of_link};

    // What comes next is given.
    #[tactic(auto, using(crate::proofs::LinkLemmas::receives_coming, crate::proofs::LinkLemmas::logs_coming))]
    fn give(&mut self, buf: &mut [u8]) -> Result<Received, NoMemory>
        requires { 0 < length buf.old }
        ensures answer { IfOk result (λ answer. answer ≡ received_as (coming self.old (length buf.old))) }
        ensures given { OnOk result (self.new ≡ after_coming (coming self.old (length buf.old)) self.old) }
        ensures receives { IfOk result (λ answer. Receives answer (length buf.old) (state_of_link self.old) (state_of_link self.new)) }
        ensures log { IfOk result (λ answer. self.new.log ≡ log_after_recv answer buf.new self.old.log) }
        ensures later { OnOk result (self.old.history.moment ≤ self.new.history.moment) }
        ensures no_memory { OnErr result (self.new ≡ self.old) }
    {
        let event = self.coming(buf.len())?;
        let answer = fill(&event, buf);
        let entry = LinkMove::Came(event.copy(self.alloc)?);
        self.note(entry)?;
        self.count(&event);
        self.pass(event.len());
        Ok(answer)
    }
}

impl Link for MemLink {
    ghost use Rattle.ads_outside.specs.declared.link_move.LinkMove.{LinkMove as MoveOf};
    ghost use Rattle.ads_outside.specs.declared.link_event.LinkEvent.{LinkEvent as EventOf};
    ghost use Rattle.ads_outside.specs.LinkAnswers.{Connects, Sends, Receives};
    ghost use Rattle.ads_outside.specs.LinkAnswers.{log_after_connect, TellsSent, log_after_recv};
    ghost use Rattle.ads_outside.specs.LinkState.{LinkNeverFalls};
    ghost use Rattle.ads_outside.specs.MemLink.{HeldLink, state_of_link, connected_of, sent_of, received_of};
    ghost use Rattle.ads_outside.specs.MemLink.{after_connect, after_send, after_recv, IsTold};

    ghost state = { state_of_link };

    ghost Origin = { List EventOf };

    ghost tells = { IsTold };

    fn faults(&self) -> u64 {
        self.failing.faults()
    }

    fn connect(&mut self, to: &str) -> Connected
        ensures connects { Connects result (state_of_link self.old) (state_of_link self.new) }
        ensures told { (o : List EventOf) (log : List MoveOf) → IsTold self.old o log → IsTold self.new o (log_after_connect result to.now log) }
        ensures later { LinkNeverFalls (state_of_link self.old) (state_of_link self.new) }
        ensures answer { result ≢ Connected.Memory → result ≡ connected_of self.old }
        ensures counted { self.new ≡ after_connect result self.old to.now }
    {
        let fails = self.failing.fails_next();
        let now = self.next_moment();
        if self.note_connect(to, fails, now).is_err() {
            self.failing.call();
            return Connected::Memory;
        }
        if fails {
            self.failing.fault();
            return Connected::Failed;
        }
        self.failing.call();
        self.counts.connect(now);
        Connected::Ready(now)
    }

    fn send(&mut self, bytes: &[u8]) -> Sent
        ensures sends { Sends result (state_of_link self.old) (state_of_link self.new) }
        ensures told { (o : List EventOf) (log : List MoveOf) → IsTold self.old o log → TellsSent (λ sent. IsTold self.new o sent) result bytes.now log }
        ensures later { LinkNeverFalls (state_of_link self.old) (state_of_link self.new) }
        ensures answer { result ≢ Sent.Memory → result ≡ sent_of self.old }
        ensures counted { self.new ≡ after_send result self.old bytes.now }
    {
        if self.failing.fails_next() {
            self.failing.fault();
            return Sent::Failed;
        }
        let noted = self.note_sent(bytes);
        self.failing.call();
        match noted {
            Ok(()) => Sent::All,
            Err(NoMemory) => Sent::Memory,
        }
    }

    fn recv(&mut self, buf: &mut [u8]) -> Received
        requires { 0 < length buf.old }
        ensures receives { Receives result (length buf.old) (state_of_link self.old) (state_of_link self.new) }
        ensures told { (o : List EventOf) (log : List MoveOf) → IsTold self.old o log → IsTold self.new o (log_after_recv result buf.new log) }
        ensures later { LinkNeverFalls (state_of_link self.old) (state_of_link self.new) }
        ensures answer { result ≢ Received.Memory → result ≡ received_of self.old (length buf.old) }
        ensures counted { self.new ≡ after_recv result self.old (length buf.old) }
    {
        if self.failing.fails_next() {
            self.failing.fault();
            self.counts.break_off();
            return Received::Failed;
        }
        let given = self.give(buf);
        self.failing.call();
        match given {
            Ok(answer) => answer,
            Err(NoMemory) => Received::Memory,
        }
    }
}

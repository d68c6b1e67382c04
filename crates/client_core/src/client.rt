//! The client.

ghost use Rattle.std.specs.Prelude.{◌≡◌, [], ◌∷◌, ◌++◌, ◌<◌, ◌≤◌, ◌↔◌, IfOk, OnOk, OnErr, IsErr, IfNone, Some, None, MatchResult};
ghost use Rattle.spec_formats.specs.Header.{AmsAddress};
ghost use Rattle.spec_client.specs.Unanswered.{MAX_OUTSTANDING, outstanding_count};
ghost use Rattle.spec_client.specs.History.{ClientHistory, Issue, Fed, Tick, Next, heard_after, issued_after};
ghost use Rattle.ads_commands.specs.Request.{IsWritable, request_meant};
ghost use Rattle.ams_header.specs.Header.{address_of};
ghost use Rattle.client_core.specs.Heard.{heard_meant, issued_meant};
ghost use Rattle.client_core.specs.Kept.{bytes_left};
ghost use Rattle.client_core.specs.Represents.{Represents, StandsFor};
ghost use Rattle.client_core.specs.Promised.{IsPromised};
ghost use Rattle.client_core.specs.Hears.{StandsStill, Hears, HearsFrames, Turns, HeardAt, Cuts, Applies};
ghost use Rattle.client_core.specs.Hears.{Holds, IsAtBroken, IsHearing, hearing_in_frames, with_waiting};
ghost use Rattle.spec_client.specs.Client.{Client as Spec};
ghost use Rattle.ams_tcp.specs.History.{IsFrameCut};

use crate::issuing::{command_of, frame_of};
use crate::samples::StampedSample;
use crate::unanswered::{Unanswered, answer, next_id, outstanding_count, pass, take_timeout};
use crate::verdict::{Verdict, verdict_on};
use crate::{Heard, Issued, Outstanding};
use ads_base::{AmsAddr, NoMemory, Octets, Peer};
use ads_commands::Request;
use ams_tcp::{Cut, Splitter};
use std::alloc::Global;
use std::collections::VecDeque;
use std::marker::Model;

/// The most requests that wait for their answers.
const MAX_WAITING: usize = 64;

/// A client of one device. What it answers is a function of its history: the requests that it issued, the bytes and
/// the ticks that came, and how often it was asked. Contracts speak of every history that it stands for.
#[derive(Drop)]
pub struct Client {
    me: AmsAddr,
    peer: AmsAddr,
    last_id: u32,
    unanswered: Vec<Unanswered>,
    splitter: Splitter,
    // A packet that was cut stays here where memory was wanting for what it says.
    waiting: Option<Octets>,
    samples: VecDeque<StampedSample>,
    broken: Option<Peer>,
}

impl Model for Client {
    ghost use Rattle.ams_header.specs.Header.{address_of};
    ghost use Rattle.client_core.specs.Kept.{Kept};

    ghost Value = { Kept };

    ghost view = { λ c. record {
      me = address_of c.me;
      peer = address_of c.peer;
      last_id = c.last_id;
      unanswered = c.unanswered.items;
      stream = c.splitter;
      waiting = c.waiting;
      samples = c.samples.items;
      broken = c.broken;
    } };
}

impl Client {
    /// A client with this address of a device with that one, to which nothing happened.
    pub fn new(alloc: Global, me: AmsAddr, peer: AmsAddr) -> Result<Client, NoMemory>
        ensures { IfOk result (λ client. Represents (address_of me) (address_of peer) client []) }
    {
        let splitter = Splitter::new(alloc)?;
        Ok(Client {
            me,
            peer,
            last_id: 0,
            unanswered: Vec::new(alloc),
            splitter,
            waiting: None,
            samples: VecDeque::new(alloc),
            broken: None,
        })
    }

    /// Issues a request: its invoke id, and the frame that is to be sent. It is refused where 64 requests wait for
    /// their answers.
    pub fn issue(
        &mut self,
        alloc: Global,
        r: &Request<'_>,
        now: u64,
    ) -> Result<Result<Issued, Outstanding>, NoMemory>
        requires { IsWritable r.now }

        // What is issued, and exactly when none is.
        ensures issued { IfOk result (λ answer. (me peer : AmsAddress) (h : ClientHistory) → Represents me peer self.old h
            → issued_meant answer ≡ issued_after me peer h (request_meant r.now)) }
        ensures full { IfOk result (λ answer. IsErr answer ↔ (MAX_OUTSTANDING ≤ outstanding_count self.old.unanswered)) }

        // What stands then.
        ensures stands { OnOk result ((me peer : AmsAddress) (h : ClientHistory) → Represents me peer self.old h
            → Represents me peer self.new (h ++ Issue (request_meant r.now) now ∷ [])) }
        ensures err { IfOk result (λ answer. OnErr answer (self.new ≡ self.old)) }
        ensures no_memory { OnErr result (self.new ≡ self.old) }
    {
        if outstanding_count(&self.unanswered) >= MAX_WAITING {
            return Ok(Err(Outstanding));
        }
        let id = next_id(&self.unanswered, self.last_id);
        let frame = frame_of(alloc, self.me, self.peer, id, r)?;
        self.unanswered
            .push(Unanswered::new(id, command_of(r), now))?;
        self.last_id = id;
        Ok(Ok(Issued { id, frame }))
    }

    /// Bytes came.
    pub fn feed(&mut self, alloc: Global, piece: &[u8]) -> Result<(), NoMemory>
        ensures stands { OnOk result ((me peer : AmsAddress) (h : ClientHistory) → Represents me peer self.old h
            → Represents me peer self.new (h ++ Fed piece.now ∷ [])) }
        ensures no_memory { OnErr result ((me peer : AmsAddress) (h : ClientHistory) → Represents me peer self.old h
            → Represents me peer self.new h) }
    {
        self.splitter.feed(alloc, piece)
    }

    /// A tick of the clock: each request that has waited for 50,000,000 or more times out.
    pub fn tick(&mut self, now: u64)
        ensures { (me peer : AmsAddress) (h : ClientHistory) → Represents me peer self.old h
            → Represents me peer self.new (h ++ Tick now ∷ []) }
    {
        pass(&mut self.unanswered, now);
    }

    /// What is heard next: timeouts by rising id, then what the bytes hold in order.
    pub fn next(&mut self, alloc: Global) -> Result<Heard, NoMemory>
        ensures heard { IfOk result (λ heard. (me peer : AmsAddress) (h : ClientHistory) → Represents me peer self.old h
            → heard_meant heard ≡ heard_after me peer h) }
        ensures promised { IfOk result (λ heard. (me peer : AmsAddress) (h : ClientHistory) → Represents me peer self.old h
            → IsPromised me peer h (heard_meant heard)) }
        ensures stands { OnOk result ((me peer : AmsAddress) (h : ClientHistory) → Represents me peer self.old h
            → Represents me peer self.new (h ++ Next ∷ [])) }
        ensures no_memory { OnErr result ((me peer : AmsAddress) (h : ClientHistory) → Represents me peer self.old h
            → Represents me peer self.new h) }
    {
        self.hear(alloc)
    }

    // What is heard next, over every client that is stood for.
    fn hear(&mut self, alloc: Global) -> Result<Heard, NoMemory>
        ensures { MatchResult result (Hears self.old self.new) (λ _. StandsStill self.old self.new) }
    {
        if let Some(u) = take_timeout(&mut self.unanswered) {
            return Ok(Heard::TimedOut {
                id: u.id(),
                sent: u.sent(),
                now: u.timed_out(),
            });
        }
        if let Some(peer) = &self.broken {
            let copy = copy_of(alloc, peer)?;
            return Ok(Heard::Broken(copy));
        }
        if let Some(sample) = self.samples.pop_front() {
            return Ok(sample.heard());
        }
        self.hear_frames(alloc)
    }

    // What is heard of the frames that are left.
    fn hear_frames(&mut self, alloc: Global) -> Result<Heard, NoMemory>
        ensures { MatchResult result (HearsFrames self.old self.new) (λ _. StandsStill self.old self.new) }
    {
        loop {
            if let Some(heard) = self.turn(alloc)? {
                return Ok(heard);
            }
        }
    }

    // One packet is heard or passed over, or none is left.
    fn turn(&mut self, alloc: Global) -> Result<Option<Heard>, NoMemory>
        ensures turns { MatchResult result (Turns self.old self.new) (λ _. StandsStill self.old self.new) }
        ensures shorter { IfOk result (λ heard. IfNone heard (bytes_left self.new < bytes_left self.old)) }
    {
        match self.packet(alloc)? {
            Cut::Frame(packet) => self.hear_packet(alloc, packet),
            Cut::NotYet => Ok(Some(Heard::NotYet)),
            Cut::Broken => Ok(Some(self.break_off(alloc)?)),
        }
    }

    // The next packet: the one that waits, or else the next one of the stream.
    fn packet(&mut self, alloc: Global) -> Result<Cut, NoMemory>
        ensures cuts { IfOk result (Cuts self.old self.new) }
        ensures shorter { IfOk result (λ cut. IsFrameCut cut → bytes_left self.new < bytes_left self.old) }
        ensures none_waits { OnOk result (self.new.waiting ≡ None) }
        ensures no_memory { OnErr result (self.new ≡ self.old) }
    {
        match self.waiting.take() {
            Some(packet) => Ok(Cut::Frame(packet)),
            None => self.splitter.next(alloc),
        }
    }

    // What a packet says; where memory is wanting for that, it waits.
    fn hear_packet(&mut self, alloc: Global, packet: Octets) -> Result<Option<Heard>, NoMemory>
        requires { self.old.waiting ≡ None }
        ensures ok { IfOk result (λ heard. (c : Spec) → StandsFor (with_waiting self.old packet) c → HeardAt self.new heard c) }
        ensures stream { OnOk result (self.new.stream ≡ self.old.stream) }
        ensures waiting { OnOk result (self.new.waiting ≡ None) }
        ensures no_memory { OnErr result (self.new ≡ record self.old { waiting = Some packet }) }
    {
        let verdict = verdict_on(
            alloc,
            &self.me,
            &self.peer,
            &self.unanswered,
            packet.as_slice(),
        );
        match verdict {
            Ok(verdict) => Ok(self.apply(packet, verdict)),
            Err(wants) => {
                self.waiting = Some(packet);
                Err(wants)
            }
        }
    }

    // What becomes of the verdict on a packet. This takes no memory.
    fn apply(&mut self, packet: Octets, verdict: Verdict) -> Option<Heard>
        requires { self.old.waiting ≡ None }
        ensures applies { Applies self.old self.new packet verdict result }
        ensures stream { self.new.stream ≡ self.old.stream }
        ensures waiting { self.new.waiting ≡ None }
    {
        match verdict {
            Verdict::Passes => None,
            Verdict::Answers(id, heard) => {
                answer(&mut self.unanswered, id);
                Some(heard)
            }
            Verdict::Says(heard) => Some(heard),
            Verdict::Holds(samples) => self.hold(samples),
            Verdict::Breaks(copy) => {
                self.broken = Some(Peer::Text(packet));
                Some(Heard::Broken(Peer::Text(copy)))
            }
        }
    }

    // The first of these samples is heard, and the others are left.
    fn hold(&mut self, samples: VecDeque<StampedSample>) -> Option<Heard>
        ensures { Holds self.old self.new samples.items result }
    {
        let mut samples = samples;
        let first = samples.pop_front()?;
        self.samples = samples;
        Some(first.heard())
    }

    // The broken place is told, and all is broken from then on.
    fn break_off(&mut self, alloc: Global) -> Result<Heard, NoMemory>
        ensures ok { IfOk result (λ heard. (c : Spec) → IsAtBroken self.old c → IsHearing self.new heard (hearing_in_frames c)) }
        ensures no_memory { OnErr result (self.new ≡ self.old) }
    {
        // Broken was answered, so the six bytes are there.
        let Some(six) = self.splitter.broken() else {
            return Ok(Heard::NotYet);
        };
        let copy = Octets::copy_of(alloc, &six)?;
        let kept = Octets::copy_of(alloc, &six)?;
        self.broken = Some(Peer::Frame(kept));
        Ok(Heard::Broken(Peer::Frame(copy)))
    }
}

// A copy of what the peer did wrong.
fn copy_of(alloc: Global, peer: &Peer) -> Result<Peer, NoMemory>
    ensures { IfOk result (λ copy. copy ≡ peer.now) }
{
    match peer {
        Peer::Frame(bytes) => Ok(Peer::Frame(Octets::copy_of(alloc, bytes.as_slice())?)),
        Peer::Text(bytes) => Ok(Peer::Text(Octets::copy_of(alloc, bytes.as_slice())?)),
        Peer::Closed => Ok(Peer::Closed),
    }
}

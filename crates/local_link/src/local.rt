//! The server in the client's own process.

ghost use Rattle.std.specs.Prelude.{◌≡◌, ◌≢◌, ◌≤◌, ◌<◌, [], ◌∷◌, ◌++◌, List, length, IfOk, OnOk, OnErr};
ghost use Rattle.ads_outside.specs.LinkState.{not_connected, connected_at};
ghost use Rattle.spec_local.specs.LocalCall.{LAST_MOMENT, next_tick};
ghost use Rattle.server_core.specs.Served.{ServedState};
ghost use Rattle.server_core.specs.Serves.{Serves};

use crate::stepping::Steps;
use crate::waiting::take_waiting;
use ads_base::{NoMemory, Octets};
use ads_outside::{Connected, Event, Link, LinkCounts, Received, Sent};
use server_core::{Core, Sources, gone_connections_are_forgotten};
use std::alloc::Global;
use std::marker::Model;

// A hundredth of a second, in 100 ns.
const LOCAL_TICK: u64 = 100_000;

/// A link to the server's core in the same process: what is sent is a piece of its connection 1, and what waits for that
/// connection comes. Where nothing waits, the machine's clock goes on by a hundredth of a second. No call fails; after
/// want of memory each call answers so.
#[derive(Drop)]
pub struct LocalLink<P: Steps, G: Sources> {
    steps: P,
    alloc: Global,
    core: Core<G>,
    counts: LinkCounts,
    // Memory was wanting: nothing is answered any more.
    wanting: bool,
}

impl<P: Steps, G: Sources> Model for LocalLink<P, G> {
    ghost use Rattle.local_link.specs.Link.{LocalView};

    ghost Value = { LocalView };

    ghost view = { λ l. record { core = l.core; history = l.counts; wanting = l.wanting } };

    ghost invariant = { λ l. P.can_step l.steps };
}

impl<P: Steps, G: Sources> LocalLink<P, G> {
    ghost use Rattle.local_link.specs.Link.{unblocked, IsTold};

    /// A link to this core, which has no connection and no last moment. Nothing is allocated.
    pub fn new(steps: P, alloc: Global, core: Core<G>) -> LocalLink<P, G>
        requires can { P.can_step steps }
        ensures told { (s : ServedState) → Serves core (unblocked s) → s.moment ≡ 0 → IsTold result s [] }
        ensures history { result.history ≡ not_connected }
    {
        LocalLink {
            steps,
            alloc,
            core,
            counts: LinkCounts::new(),
            wanting: false,
        }
    }
}

impl<P: Steps, G: Sources> LocalLink<P, G> {
    ghost use Rattle.local_link.specs.Giving.{Follows, Gives};
    ghost use Rattle.local_link.specs.Link.{ComesWhole, StandsFor};
    ghost use Rattle.ads_outside.specs.declared.link_move.LinkMove.TheVariants as link;

    // Connection 1 is opened; one that is there is removed before.
    fn open(&mut self, to: &str) -> Result<u64, NoMemory>
        ensures opened { IfOk result (λ now. Follows self.old self.new (link.Connected to.now now)) }
        ensures counted { IfOk result (λ now. self.new.history ≡ connected_at now) }
        ensures same_moment { IfOk result (λ now. now ≡ self.old.history.moment) }
        ensures no_memory { OnErr result (self.new.history ≡ self.old.history) }
    {
        self.core.remove(1);
        gone_connections_are_forgotten();
        self.steps
            .step(self.alloc, &mut self.core, Event::Opened(1))?;
        let now = self.counts.moment();
        self.counts.connect(now);
        Ok(now)
    }

    // A piece of connection 1 comes in.
    fn piece(&mut self, bytes: &[u8]) -> Result<(), NoMemory>
        ensures follows { OnOk result (Follows self.old self.new (link.Sent bytes.now)) }
        ensures same { self.new.history ≡ self.old.history }
    {
        let copy = Octets::copy_of(self.alloc, bytes)?;
        self.steps
            .step(self.alloc, &mut self.core, Event::Piece(1, copy))?;
        Ok(())
    }

    // What waits is given; or else the end, where the connection is to be shut; or else a tick is made, and what waits
    // then is given, or nothing.
    fn give(&mut self, buf: &mut [u8]) -> Result<Received, NoMemory>
        requires { 0 < length buf.old }
        ensures gives { IfOk result (λ answer. Gives answer (length buf.old) buf.new self.old self.new) }
        ensures whole { IfOk result (λ answer. (s : ServedState) → StandsFor self.old s → ComesWhole answer (length buf.old) s) }
        ensures no_memory { OnErr result (self.new.history ≡ self.old.history) }
    {
        let waits = take_waiting(&self.steps, self.alloc, &mut self.core, buf)?;
        if waits > 0 {
            let now = self.counts.moment();
            self.counts.bytes(now);
            return Ok(Received::Bytes(waits, now));
        }
        if self.core.closing(1) {
            let now = self.counts.moment();
            self.counts.close(now);
            return Ok(Received::Closed(now));
        }
        let now = next_tick(self.counts.moment());
        self.steps
            .step(self.alloc, &mut self.core, Event::Tick(now))?;
        let came = take_waiting(&self.steps, self.alloc, &mut self.core, buf)?;
        if came > 0 {
            self.counts.bytes(now);
            return Ok(Received::Bytes(came, now));
        }
        self.counts.quiet(now);
        Ok(Received::Quiet(now))
    }
}

// The moment of the tick behind this one; the clock stands still at its type's end.
fn next_tick(now: u64) -> u64
    ensures is { result ≡ next_tick now }
    ensures bound { now ≤ LAST_MOMENT }
{
    now.saturating_add(LOCAL_TICK)
}

impl<P: Steps, G: Sources> Link for LocalLink<P, G> {
    ghost use Rattle.ads_outside.specs.declared.link_move.LinkMove.{LinkMove as MoveOf};
    ghost use Rattle.ads_outside.specs.LinkAnswers.{Connects, Sends, Receives};
    ghost use Rattle.ads_outside.specs.LinkAnswers.{log_after_connect, TellsSent, log_after_recv};
    ghost use Rattle.ads_outside.specs.LinkState.{LinkNeverFalls};
    ghost use Rattle.local_link.specs.Link.{state_of, ComesWhole, IsTold, StandsFor};

    ghost state = { state_of };

    ghost Origin = { ServedState };

    ghost tells = { IsTold };

    fn faults(&self) -> u64 {
        0
    }

    fn connect(&mut self, to: &str) -> Connected
        ensures connects { Connects result (state_of self.old) (state_of self.new) }
        ensures told { (o : ServedState) (log : List MoveOf) → IsTold self.old o log → IsTold self.new o (log_after_connect result to.now log) }
        ensures later { LinkNeverFalls (state_of self.old) (state_of self.new) }
        ensures never_fails { result ≢ Connected.Failed }
    {
        if self.wanting {
            return Connected::Memory;
        }
        match self.open(to) {
            Ok(now) => Connected::Ready(now),
            Err(NoMemory) => {
                self.wanting = true;
                Connected::Memory
            }
        }
    }

    fn send(&mut self, bytes: &[u8]) -> Sent
        ensures sends { Sends result (state_of self.old) (state_of self.new) }
        ensures told { (o : ServedState) (log : List MoveOf) → IsTold self.old o log → TellsSent (λ sent. IsTold self.new o sent) result bytes.now log }
        ensures later { LinkNeverFalls (state_of self.old) (state_of self.new) }
        ensures never_fails { result ≢ Sent.Failed }
    {
        if self.wanting {
            return Sent::Memory;
        }
        match self.piece(bytes) {
            Ok(()) => Sent::All,
            Err(NoMemory) => {
                self.wanting = true;
                Sent::Memory
            }
        }
    }

    fn recv(&mut self, buf: &mut [u8]) -> Received
        requires { 0 < length buf.old }
        ensures receives { Receives result (length buf.old) (state_of self.old) (state_of self.new) }
        ensures told { (o : ServedState) (log : List MoveOf) → IsTold self.old o log → IsTold self.new o (log_after_recv result buf.new log) }
        ensures later { LinkNeverFalls (state_of self.old) (state_of self.new) }
        ensures never_fails { result ≢ Received.Failed }
        ensures whole { (s : ServedState) → StandsFor self.old s → ComesWhole result (length buf.old) s }
    {
        if self.wanting {
            return Received::Memory;
        }
        match self.give(buf) {
            Ok(answer) => answer,
            Err(NoMemory) => {
                self.wanting = true;
                Received::Memory
            }
        }
    }
}

//! A wire under a stop and an onlooker.

ghost use Rattle.std.specs.Prelude.{◌≡◌, ◌+◌, ◌<◌, ◌≤◌, ◌^◌, length};
ghost use Rattle.ads_outside.specs.Rose.{raised};
ghost use Rattle.daemon_outside.specs.Sights.{Sees};
ghost use Rattle.daemon_outside.specs.Stops.{raised_if};
ghost use Rattle.watched_wire.specs.Ticks.{TicksAre, is_end, is_tick_next};
ghost use Rattle.watched_wire.specs.Told.{sights_of_next, sights_of_run};

use ads_outside::{Event, Next, Offer, Shut, Started, Wire};
use daemon_outside::{Onlooker, Stop};

/// The wire inside, which ends also where a stop is asked for. That is looked for once at the start, and once behind each tick, and
/// nothing comes behind the look that found one. The onlooker is told what happens.
#[derive(Drop)]
pub struct Watched<W: Wire + Drop, S: Stop + Drop, O: Onlooker<W> + Drop> {
    pub wire: W,
    pub stop: S,
    pub onlooker: O,
    // A stop is to be looked for before the next event.
    due: bool,
    // How many ticks came.
    ticks: u64,
    ends: u64,
    ghost counted: { TicksAre ticks (W.state wire).history.log },
    // As many looks as ticks and one, or one less while that is due.
    ghost looked: { raised_if due (S.looks stop) ≡ raised ticks },
    // No look found a stop, or the last one did and it has ended.
    ghost calm: { ends ≡ 0 → S.asked stop ≡ 0 },
    ghost once: { S.asked stop ≤ 1 },
    // It ended only since a stop was asked for, or since the wire inside ended.
    ghost reason: { 0 < ends → 0 < S.asked stop + (W.state wire).history.ends },
}

impl<W: Wire + Drop, S: Stop + Drop, O: Onlooker<W> + Drop> Watched<W, S, O> {
    /// The wire has not ended, no tick came, and the stop was not looked at.
    pub fn new(wire: W, stop: S, onlooker: O) -> Self
        requires ticks { TicksAre 0 (W.state wire).history.log }
        requires looks { S.looks stop ≡ 0 }
        requires asked { S.asked stop ≡ 0 }
        ensures wire { result.wire ≡ wire }
        ensures stop { result.stop ≡ stop }
        ensures ends { result.ends ≡ 0 }
    {
        Watched {
            wire,
            stop,
            onlooker,
            due: true,
            ticks: 0,
            ends: 0,
        }
    }

    /// How often it answered that there are no more events.
    pub fn ends(&self) -> u64
        ensures { result ≡ self.now.ends }
    {
        self.ends
    }

    /// It ended only since a stop was asked for, or since the wire inside had ended.
    pub fn ended_for_a_reason(&self)
        ensures { 0 < self.now.ends → 0 < S.asked self.now.stop + (W.state self.now.wire).history.ends }
    {}

    /// A stop was looked for once at the start and once behind each tick, where the last of these looks may be still to come; and
    /// it has ended where one of them found that a stop is asked for, which was the last.
    pub fn looks_behind_each_tick(&self)
        ensures ticks { TicksAre self.now.ticks (W.state self.now.wire).history.log }
        ensures looks { raised_if self.now.due (S.looks self.now.stop) ≡ raised self.now.ticks }
        ensures calm { self.now.ends ≡ 0 → S.asked self.now.stop ≡ 0 }
        ensures once { S.asked self.now.stop ≤ 1 }
    {}
}

impl<W: Wire + Drop, S: Stop + Drop, O: Onlooker<W> + Drop> Watched<W, S, O> {
    ghost use Rattle.watched_wire.specs.Told.{TellsStop, sights_of_next};
    ghost use Rattle.watched_wire.specs.Ticks.{is_end, is_tick_next};
    ghost use Rattle.ads_outside.specs.WireAnswers.{Gives};
    ghost use Rattle.daemon_outside.specs.Sights.{Sees};
    ghost use Rattle.std.specs.Prelude.{false};

    // It has ended.
    fn end(&mut self) -> Next
        requires { 0 < self.old.ends }
        ensures end { result ≡ Next.End }
        ensures ends { self.new.ends ≡ raised self.old.ends }
        ensures ticks { self.new.ticks ≡ self.old.ticks }
        ensures wire { self.new.wire ≡ self.old.wire }
        ensures stop { self.new.stop ≡ self.old.stop }
        ensures onlooker { self.new.onlooker ≡ self.old.onlooker }
    {
        self.ends = self.ends.saturating_add(1);
        Next::End
    }

    // Looks for a stop, where that is to be looked for; where one is asked for it ends, which is told.
    fn is_asked(&mut self) -> bool
        requires { self.old.ends ≡ 0 }
        ensures due { self.new.due ≡ false }
        ensures looks { S.looks self.new.stop ≡ raised_if self.old.due (S.looks self.old.stop) }
        ensures asked { S.asked self.new.stop ≡ raised_if result (S.asked self.old.stop) }
        ensures ends { self.new.ends ≡ raised_if result self.old.ends }
        ensures told { TellsStop O.seen result self.old.onlooker self.new.onlooker }
        ensures wire { self.new.wire ≡ self.old.wire }
        ensures ticks { self.new.ticks ≡ self.old.ticks }
    {
        if !self.due {
            return false;
        }
        self.due = false;
        match self.stop.look() {
            Some(cause) => {
                self.onlooker.stops(cause);
                self.ends = self.ends.saturating_add(1);
                true
            }
            None => false,
        }
    }

    // The answer of the wire inside, which is told; behind a tick a stop is to be looked for.
    #[tactic(auto, using(crate::proofs::EndLemmas::end_reason, crate::proofs::TickLemmas::gives_ticks, crate::proofs::TickLemmas::looks_due))]
    fn answered(&mut self) -> Next
        requires goes_on { self.old.ends ≡ 0 }
        requires looked { self.old.due ≡ false }
        ensures gives { Gives result (W.state self.old.wire) (W.state self.new.wire) }
        ensures kept { W.kept self.new.wire ≡ W.kept self.old.wire }
        ensures later { (W.state self.old.wire).faults ≤ (W.state self.new.wire).faults }
        ensures wanted { (W.state self.old.wire).wants ≤ (W.state self.new.wire).wants }
        ensures ends { self.new.ends ≡ raised_if (is_end result) self.old.ends }
        ensures ticks { self.new.ticks ≡ raised_if (is_tick_next result) self.old.ticks }
        ensures due { self.new.due ≡ is_tick_next result }
        ensures stop { self.new.stop ≡ self.old.stop }
        ensures told { Sees O.seen (sights_of_next result) self.old.onlooker self.new.onlooker }
    {
        let next = self.wire.next();
        tell(&mut self.onlooker, &self.wire, &next);
        self.due = is_tick(&next);
        self.ticks = raised_if(self.due, self.ticks);
        self.ends = raised_if(is_end(&next), self.ends);
        next
    }
}

// An answer is told.
fn tell<W: Wire, O: Onlooker<W>>(onlooker: &mut O, wire: &W, next: &Next)
    ensures { Sees O.seen (sights_of_next next.now) onlooker.old onlooker.new }
{
    match next {
        Next::Event(event) => onlooker.saw(event, wire),
        Next::End => onlooker.ended(),
        Next::Failed => onlooker.failed(),
        Next::Memory => onlooker.lacked_memory(),
    }
}

// A run that was taken is told as one offer.
fn tell_run<W, O: Onlooker<W>>(onlooker: &mut O, taken: bool, conn: u32, run: &[u8])
    requires { length run.now < 2 ^ 32 }
    ensures { Sees O.seen (sights_of_run taken conn run.now) onlooker.old onlooker.new }
{
    if taken {
        onlooker.offered(conn, run, run.len() as u32);
    }
}

fn is_tick(next: &Next) -> bool
    ensures { result ≡ is_tick_next next.now }
{
    matches!(next, Next::Event(Event::Tick(_)))
}

fn is_end(next: &Next) -> bool
    ensures { result ≡ is_end next.now }
{
    matches!(next, Next::End)
}

// One more where that is so.
fn raised_if(so: bool, count: u64) -> u64
    ensures { result ≡ raised_if so count }
{
    if so { count.saturating_add(1) } else { count }
}

impl<W: Wire + Drop, S: Stop + Drop, O: Onlooker<W> + Drop> Wire for Watched<W, S, O> {
    ghost use Rattle.ads_outside.specs.WireAnswers.{Starts, Gives, Takes, TakesRun, Shuts};
    ghost use Rattle.daemon_outside.specs.Sights.{Sees};
    ghost use Rattle.watched_wire.specs.Ends.{state_with_ends};
    ghost use Rattle.watched_wire.specs.Ticks.{is_tick_next};
    ghost use Rattle.watched_wire.specs.Told.{TellsNext, sights_of_start, sights_of_offer, sights_of_run, sights_of_shut};

    ghost state = { λ w. state_with_ends w.ends (W.state w.wire) };

    ghost Kept = { W.Kept };

    ghost kept = { λ w. W.kept w.wire };

    fn faults(&self) -> u64 {
        self.wire.faults()
    }

    fn stops(&self) -> u64 {
        self.wire.stops()
    }

    #[tactic(auto, using(crate::proofs::TickLemmas::starts_ticks))]
    fn start(&mut self, listen: &str, name: &str, first: &[u8]) -> Started
        ensures starts { Starts result (state_with_ends self.old.ends (W.state self.old.wire))
            (state_with_ends self.new.ends (W.state self.new.wire))
            (record { listen = listen.now; name = name.now; first = first.now }) }
        ensures kept { W.kept self.new.wire ≡ W.kept self.old.wire }
        ensures later { (W.state self.old.wire).faults ≤ (W.state self.new.wire).faults }
        ensures wanted { (W.state self.old.wire).wants ≤ (W.state self.new.wire).wants }
        ensures told { Sees O.seen (sights_of_start result listen.now name.now first.now) self.old.onlooker self.new.onlooker }
    {
        let started = self.wire.start(listen, name, first);
        match started {
            Started::Ready => self.onlooker.listens(listen, name, first),
            Started::Failed => self.onlooker.cannot_listen(listen),
            Started::Memory => self.onlooker.lacked_memory(),
        }
        started
    }

    #[tactic(auto, using(crate::proofs::EndLemmas::gives_with_ends))]
    fn next(&mut self) -> Next
        ensures gives { Gives result (state_with_ends self.old.ends (W.state self.old.wire)) (state_with_ends self.new.ends (W.state self.new.wire)) }
        ensures kept { W.kept self.new.wire ≡ W.kept self.old.wire }
        ensures later { (W.state self.old.wire).faults ≤ (W.state self.new.wire).faults }
        ensures wanted { (W.state self.old.wire).wants ≤ (W.state self.new.wire).wants }
        ensures ended { 0 < self.old.ends → result ≡ Next.End }
        ensures wire { 0 < self.old.ends → self.new.wire ≡ self.old.wire }
        ensures stop { 0 < self.old.ends → self.new.stop ≡ self.old.stop }
        ensures silent { 0 < self.old.ends → self.new.onlooker ≡ self.old.onlooker }
        ensures ticks { self.new.ticks ≡ raised_if (is_tick_next result) self.old.ticks }
        ensures told { self.old.ends ≡ 0 → TellsNext O.seen result self.old.onlooker self.new.onlooker }
    {
        if 0 < self.ends {
            return self.end();
        }
        if self.is_asked() {
            return Next::End;
        }
        self.answered()
    }

    #[tactic(auto, using(crate::proofs::TickLemmas::same_ticks))]
    fn take_back(&mut self, event: Event) {
        self.wire.take_back(event);
    }

    #[tactic(auto, using(crate::proofs::TickLemmas::takes_ticks))]
    fn offer(&mut self, conn: u32, bytes: &[u8]) -> Offer
        requires { length bytes.now < 2 ^ 32 }
        ensures takes { Takes result (state_with_ends self.old.ends (W.state self.old.wire))
            (state_with_ends self.new.ends (W.state self.new.wire)) conn bytes.now }
        ensures kept { W.kept self.new.wire ≡ W.kept self.old.wire }
        ensures later { (W.state self.old.wire).faults ≤ (W.state self.new.wire).faults }
        ensures wanted { (W.state self.old.wire).wants ≤ (W.state self.new.wire).wants }
        ensures told { Sees O.seen (sights_of_offer result conn bytes.now) self.old.onlooker self.new.onlooker }
    {
        let offer = self.wire.offer(conn, bytes);
        match offer {
            Offer::Took(taken) => self.onlooker.offered(conn, bytes, taken),
            Offer::Failed => self.onlooker.lost(conn),
            Offer::Memory => self.onlooker.lacked_memory(),
        }
        offer
    }

    #[tactic(auto, using(crate::proofs::EndLemmas::takes_run, crate::proofs::EndLemmas::run_keeps_ends, crate::proofs::TickLemmas::run_ticks))]
    fn offer_run(&mut self, conn: u32, run: &[u8]) -> bool
        requires { length run.now < 2 ^ 32 }
        ensures takes { TakesRun result (state_with_ends self.old.ends (W.state self.old.wire))
            (state_with_ends self.new.ends (W.state self.new.wire)) conn run.now }
        ensures kept { W.kept self.new.wire ≡ W.kept self.old.wire }
        ensures later { (W.state self.old.wire).faults ≤ (W.state self.new.wire).faults }
        ensures wanted { (W.state self.old.wire).wants ≤ (W.state self.new.wire).wants }
        ensures told { Sees O.seen (sights_of_run result conn run.now) self.old.onlooker self.new.onlooker }
    {
        let taken = self.wire.offer_run(conn, run);
        tell_run(&mut self.onlooker, taken, conn, run);
        taken
    }

    #[tactic(auto, using(crate::proofs::TickLemmas::shuts_ticks))]
    fn shut(&mut self, conn: u32) -> Shut
        ensures shuts { Shuts result (state_with_ends self.old.ends (W.state self.old.wire))
            (state_with_ends self.new.ends (W.state self.new.wire)) conn }
        ensures kept { W.kept self.new.wire ≡ W.kept self.old.wire }
        ensures later { (W.state self.old.wire).faults ≤ (W.state self.new.wire).faults }
        ensures wanted { (W.state self.old.wire).wants ≤ (W.state self.new.wire).wants }
        ensures told { Sees O.seen (sights_of_shut result conn) self.old.onlooker self.new.onlooker }
    {
        let shut = self.wire.shut(conn);
        match shut {
            Shut::Done => self.onlooker.shut(conn),
            Shut::Memory => self.onlooker.lacked_memory(),
        }
        shut
    }
}

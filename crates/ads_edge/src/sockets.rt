//! Doors, connections, the clock and the watch.

ghost use Rattle.std.specs.Prelude.{◌≡◌, ◌≤◌, ◌<◌, ◌^◌, length, vec_len, IfOk, IfSome, IsTrue};
ghost use Rattle.std.specs.Option.{ForSome};
ghost use Rattle.std.specs.Net.Socket.{socket_ip};
ghost use Rattle.ads_edge.specs.AllowedNet.{allows as is_let_in};
ghost use Rattle.ads_edge.specs.declared.guest.Guest.{Guest};
ghost use Rattle.ads_edge.specs.Happened.{IsFault, IsOfTime, IsTick, OpensBy};

use crate::description_watch::DescriptionWatch;
use crate::door_plan::DoorPlan;
use crate::doors::Doors;
use crate::guest::Guest;
use crate::happened::Happened;
use crate::peers::Peers;
use crate::refusal::{Refusal, tell};
use crate::tick_clock::TickClock;
use crate::vanished::watch_over;
use crate::wall_clock::moment;
use ads_base::{NoMemory, Octets};
use mio::event::Event;
use mio::{Events, Interest, Poll, Token};
use std::alloc::Global;
use std::net::{Net, SocketAddr};
use std::rt::Files as SystemFiles;
use std::time::{Clock, Duration, Instant};

/// How many events one poll tells: one of each connection and of a door at least.
const EVENTS: usize = 128;

/// Sockets that are polled.
pub(crate) struct Sockets {
    pub(crate) alloc: Global,
    pub(crate) poll: Poll,
    pub(crate) events: Events,
    // Where accepting failed, it is tried again at the next tick.
    pub(crate) doors: Doors,
    // Accepted and let in, and waits for a place.
    pub(crate) guest: Option<Guest>,
    pub(crate) peers: Peers,
    pub(crate) clock: TickClock,
    // The last turn was a tick.
    pub(crate) struck: bool,
    pub(crate) watch: DescriptionWatch,
    // Who waits for a place is let in.
    ghost admitted: { ForSome guest (λ (g : Guest). IsTrue (is_let_in doors.allowed.items (socket_ip g.peer))) },
}

impl Sockets {
    ghost use Rattle.ads_edge.specs.Sockets.{has_guest_to_see, is_busy};

    /// Opens the doors, and watches the named file, which held these bytes. None where a door can't be opened. Why is told on
    /// standard error.
    pub(crate) fn open<R: Net + Clock + Eprint>(
        alloc: Global,
        rt: &R,
        plan: &DoorPlan,
        listen: &str,
        name: &str,
        first: &[u8],
    ) -> Result<Option<Sockets>, NoMemory> {
        let poll = match Poll::new(rt) {
            Ok(poll) => poll,
            Err(error) => {
                tell(rt, plan.program, listen, Refusal::of(&error));
                return Ok(None);
            }
        };
        let Some(doors) = Doors::open(alloc, rt, plan, listen, poll.registry())? else {
            return Ok(None);
        };
        let (Ok(now), Some(wall)) = (Instant::now(rt), moment(rt)) else {
            tell(rt, plan.program, listen, Refusal::NoTime);
            return Ok(None);
        };
        Ok(Some(Sockets {
            alloc,
            poll,
            events: Events::with_capacity(alloc, EVENTS)?,
            doors,
            guest: None,
            peers: Peers::new(alloc),
            clock: TickClock::new(now, wall),
            struck: false,
            watch: DescriptionWatch::new(alloc, plan.watch, name, first, now)?,
        }))
    }

    /// Waits for what happens next. A connection that is accepted gets the number; without one that is a failure.
    pub(crate) fn turn<R: Clock + SystemFiles>(
        &mut self,
        rt: &R,
        number: Option<u32>,
        buffer: &mut [u8],
    ) -> Happened {
        for _ in 0..u64::MAX {
            if let Some(turn) = self.look(rt, number, buffer) {
                return turn;
            }
            if let Some(turn) = self.wait(rt) {
                return turn;
            }
        }
        Happened::Failed
    }

    /// Offers bytes to a connection: how many were taken; None where it is not there or its peer is gone.
    #[inline(always)]
    pub(crate) fn offer(&mut self, number: u32, bytes: &[u8]) -> Result<Option<u32>, NoMemory>
        requires { length bytes.now < 2 ^ 32 }
        ensures { IfOk result (λ taken. IfSome taken (λ n. n ≤ length bytes.now)) }
    {
        self.peers.offer(number, bytes)
    }

    /// Offers a run of bytes to a connection; false where not all of them are taken at once, and then nothing has changed.
    #[inline(always)]
    pub(crate) fn offer_run(&mut self, number: u32, run: &[u8]) -> bool {
        self.peers.offer_run(number, run)
    }

    /// A piece was served: its room is there for the next one.
    pub(crate) fn take_back(&mut self, piece: Octets) {
        self.peers.spare = piece;
    }

    /// The server is done with a connection: what waits for it is still sent.
    pub(crate) fn shut(&mut self, number: u32) -> Result<(), NoMemory> {
        self.peers.shut(number)
    }

    // What happens now, without a wait.
    fn look<R: Clock + SystemFiles>(
        &mut self,
        rt: &R,
        number: Option<u32>,
        buffer: &mut [u8],
    ) -> Option<Happened> {
        if let Some(turn) = self.time_turn(rt, buffer) {
            return Some(turn);
        }
        if let Some(turn) = self.peers.next_told() {
            return Some(turn);
        }
        if let Some(turn) = self.peers.next_piece(buffer) {
            self.struck = false;
            return Some(turn);
        }
        if self.peers.send_all().is_err() {
            return Some(Happened::Memory);
        }
        if let Some(turn) = self.peers.next_told() {
            return Some(turn);
        }
        self.accept(number)
    }

    // A tick or a reload, if one is due. Behind a tick something else has its turn, if there is anything.
    fn time_turn<R: Clock + SystemFiles>(&mut self, rt: &R, buffer: &mut [u8]) -> Option<Happened>
        ensures { IfSome result IsOfTime }
    {
        if self.struck {
            return None;
        }
        let Ok(now) = Instant::now(rt) else {
            return Some(Happened::Failed);
        };
        if let Some(bytes) = self.watch.changed(self.alloc, rt, now, buffer) {
            return Some(Happened::Reload(bytes));
        }
        if !self.clock.is_due(now) {
            return None;
        }
        self.struck = true;
        self.doors.knock();
        self.peers.pass_tick(self.clock.beat_at(now));
        match moment(rt) {
            Some(wall) => self.tick(now, wall),
            None => Some(Happened::Failed),
        }
    }

    // The tick of a beat, where it gives one.
    fn tick(&mut self, now: Instant, wall: u64) -> Option<Happened>
        ensures { IfSome result IsTick }
    {
        let moment = self.clock.strike(now, wall)?;
        Some(Happened::Tick(moment))
    }

    // Accepts a connection, if one waits and there is a place for it. Behind guarded doors it is asked in without a place too, so
    // that who is not let in is refused at once.
    fn accept(&mut self, number: Option<u32>) -> Option<Happened> {
        if self.peers.has_room() {
            let guest = self.next_guest()?;
            return self.welcome(number, guest);
        }
        if self.asks_in() {
            self.guest = self.doors.ask();
        }
        if self.guest.is_none() {
            return None;
        }
        self.peers.close_silent()
    }

    // Who is to get a place.
    fn next_guest(&mut self) -> Option<Guest>
        ensures let_in { IfSome result (λ guest. IsTrue (is_let_in self.new.doors.allowed.items (socket_ip guest.peer))) }
        ensures peers { self.new.peers ≡ self.old.peers }
    {
        match self.guest.take() {
            Some(guest) => Some(guest),
            None => self.doors.ask(),
        }
    }

    // Whether someone is asked in though there is no place: to be refused, or to get that of a silent connection.
    fn asks_in(&self) -> bool {
        self.doors.knocks()
            && self.guest.is_none()
            && (self.doors.is_guarded() || self.peers.is_one_silent())
    }

    // A connection was accepted. Where it can't be watched it is dropped.
    fn welcome(&mut self, number: Option<u32>, guest: Guest) -> Option<Happened>
        requires few { vec_len self.old.peers.connections < 64 }
        requires let_in { IsTrue (is_let_in self.old.doors.allowed.items (socket_ip guest.peer)) }
        ensures { IfSome result (OpensBy number) }
    {
        let Some(number) = number else {
            return Some(Happened::Failed);
        };
        let Guest { mut stream, peer } = guest;
        let _ = stream.set_nodelay(true);
        watch_over(&stream);
        let both = Interest::READABLE | Interest::WRITABLE;
        self.poll
            .registry()
            .register(&mut stream, Token(number as usize), both)
            .ok()?;
        match self.peers.open(number, stream, peer) {
            Ok(()) => Some(Happened::Opened),
            Err(NoMemory) => Some(Happened::Memory),
        }
    }

    // Waits until a socket is ready or a tick is due.
    fn wait<R: Clock>(&mut self, rt: &R) -> Option<Happened>
        ensures { IfSome result IsFault }
    {
        let Ok(now) = Instant::now(rt) else {
            return Some(Happened::Failed);
        };
        let left = if self.is_busy() {
            Duration::ZERO
        } else {
            self.clock.left(now)
        };
        self.struck = false;
        self.poll_for(left)
    }

    // Whether something is to be done without a wait.
    fn is_busy(&self) -> bool
        ensures { result ≡ is_busy self.now }
    {
        self.peers.is_busy() || self.has_guest_to_see()
    }

    // Whether someone is to be accepted or refused without a wait.
    fn has_guest_to_see(&self) -> bool
        ensures { result ≡ has_guest_to_see self.now }
    {
        if self.peers.has_room() {
            self.doors.knocks() || self.guest.is_some()
        } else {
            self.doors.knocks() && self.doors.is_guarded() && self.guest.is_none()
        }
    }

    // Sends what waits, as far as the peers read within a second.
    fn send_rest(&mut self) {
        for _ in 0..100u32 {
            if self.peers.send_all().is_err() || !self.peers.waits() {
                return;
            }
            if self.poll_for(Duration::from_millis(10)).is_some() {
                return;
            }
        }
    }

    // Polls for so long, and notes what is ready.
    fn poll_for(&mut self, left: Duration) -> Option<Happened>
        ensures { IfSome result IsFault }
    {
        if self.poll.poll(&mut self.events, Some(left)).is_err() {
            return Some(Happened::Failed);
        }
        match note_all(&self.events, &mut self.peers) {
            Ok(true) => self.doors.knock(),
            Ok(false) => {}
            Err(NoMemory) => return Some(Happened::Memory),
        }
        self.peers.begin_turns();
        None
    }
}

impl Drop for Sockets {
    // What was taken is still sent.
    fn drop(mut self) {
        self.send_rest();
        let Sockets {
            alloc: _,
            poll: _,
            events: _,
            doors: _,
            guest: _,
            peers: _,
            clock: _,
            struck: _,
            watch: _,
        } = self;
    }
}

// Notes what a poll told; true where someone may wait to be accepted.
fn note_all(events: &Events, peers: &mut Peers) -> Result<bool, NoMemory> {
    let mut knocks = false;
    for event in events {
        knocks = note(peers, event)? || knocks;
    }
    Ok(knocks)
}

// Notes one event; true where someone may wait to be accepted.
fn note(peers: &mut Peers, event: &Event) -> Result<bool, NoMemory> {
    let token = event.token();
    match u32::try_from(token.0) {
        Ok(number) => {
            peers.note(number, event)?;
            Ok(false)
        }
        Err(_) => Ok(true),
    }
}

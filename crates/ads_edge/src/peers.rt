//! The connections of a wire.

ghost use Rattle.std.specs.Prelude.{◌≡◌, ◌≤◌, ◌<◌, ◌^◌, ◌∷◌, ◌++◌, ◌+◌, [], length, vec_len, nat_lt};
ghost use Rattle.std.specs.Prelude.{true, false, IfOk, OnOk, IfSome, OnSome, IfNone, if◌then◌else◌};
ghost use Rattle.std.specs.List.{HoldsAt, list_any, remove};
ghost use Rattle.ads_edge.specs.Arrived.{ArrivedWithin};
ghost use Rattle.ads_edge.specs.declared.connection.Connection.{Connection};

use crate::arrived::Arrived;
use crate::connection::Connection;
use crate::happened::Happened;
use crate::silence::longest_silent;
use crate::stage::Stage;
use ads_base::{NoMemory, Octets};
use mio::event::Event;
use mio::net::TcpStream;
use std::alloc::Global;
use std::collections::VecDeque;
use std::mem;
use std::net::SocketAddr;

/// How many connections there are at most.
pub(crate) const MOST: usize = 64;

/// Connections by rising number, at most 64, and what is to be done for them.
#[derive(Drop)]
pub(crate) struct Peers {
    pub(crate) alloc: Global,
    pub(crate) connections: Vec<Connection>,
    // The beat that was come to last.
    pub(crate) beat: u64,
    // The place that was looked up last.
    pub(crate) near: usize,
    // The numbers of those to be read, and how many of them have their turn before the next poll.
    pub(crate) to_read: VecDeque<u32>,
    pub(crate) turns: usize,
    // Of those to be sent to, and of those of which something is to be told. A number may stand there in vain.
    pub(crate) to_send: VecDeque<u32>,
    pub(crate) to_tell: VecDeque<u32>,
    // Room of a piece that was served, for the next one.
    pub(crate) spare: Octets,
    ghost few: { vec_len connections ≤ 64 },
}

impl Peers {
    ghost use Rattle.ads_edge.specs.Peers.{ClosesSilent, IsEmpty, IsLongerBy, IsPeerOf, KeepsQueues, NoneIsSilent, is_busy};
    ghost use Rattle.std.specs.VecDeque.{deque_len};
    ghost use Rattle.ads_edge.specs.Connection.{has_waiting};
    ghost use Rattle.ads_edge.specs.Happened.{IsTold, TellsOf};

    /// No connection.
    pub(crate) fn new(alloc: Global) -> Peers
        ensures { IsEmpty result }
    {
        Peers {
            alloc,
            connections: Vec::new(alloc),
            beat: 0,
            near: 0,
            to_read: VecDeque::new(alloc),
            turns: 0,
            to_send: VecDeque::new(alloc),
            to_tell: VecDeque::new(alloc),
            spare: Octets::new(alloc),
        }
    }

    /// Whether there is room for one more connection.
    pub(crate) fn has_room(&self) -> bool
        ensures { result ≡ nat_lt (vec_len self.now.connections) MOST }
    {
        self.connections.len() < MOST
    }

    /// Whether something is to be done without a wait.
    pub(crate) fn is_busy(&self) -> bool
        ensures { result ≡ is_busy self.now }
    {
        !self.to_read.is_empty() || !self.to_send.is_empty() || !self.to_tell.is_empty()
    }

    /// A connection comes, with a number above all others.
    pub(crate) fn open(
        &mut self,
        number: u32,
        stream: TcpStream,
        peer: SocketAddr,
    ) -> Result<(), NoMemory>
        requires { vec_len self.old.connections < MOST }
        ensures { OnOk result (vec_len self.new.connections ≡ vec_len self.old.connections + 1) }
    {
        let connection = Connection::new(self.alloc, number, self.beat, stream, peer);
        self.connections.push(connection)?;
        Ok(())
    }

    /// The poll tells of a connection.
    #[tactic(auto, using(crate::proofs::QueueLemmas::longer_same, crate::proofs::QueueLemmas::longer_one))]
    pub(crate) fn note(&mut self, number: u32, event: &Event) -> Result<(), NoMemory>
        ensures to_read { IsLongerBy self.old.to_read.items self.new.to_read.items }
        ensures to_send { IsLongerBy self.old.to_send.items self.new.to_send.items }
    {
        let Some(place) = self.place_of(number) else {
            return Ok(());
        };
        let hung = event.is_read_closed() || event.is_error();
        if hung || event.is_readable() {
            self.list_to_read(place, hung)?;
        }
        if event.is_writable() {
            self.list_to_send(place)?;
        }
        Ok(())
    }

    /// Those that are to be read now have a turn each before the next poll.
    pub(crate) fn begin_turns(&mut self)
        ensures { self.new ≡ record self.old { turns = deque_len self.old.to_read } }
    {
        self.turns = self.to_read.len();
    }

    /// What came on the next connection that brings something in its turn.
    pub(crate) fn next_piece(&mut self, buffer: &mut [u8]) -> Option<Happened>
        ensures turn { OnSome result (self.new.turns < self.old.turns) }
    {
        for _ in 0..u64::MAX {
            if self.turns == 0 {
                return None;
            }
            self.turns -= 1;
            let number = self.to_read.pop_front()?;
            if let Some(turn) = self.read_from(number, buffer) {
                return Some(turn);
            }
        }
        None
    }

    /// The next thing that is to be told of a connection.
    pub(crate) fn next_told(&mut self) -> Option<Happened>
        ensures { IfSome result IsTold }
    {
        for _ in 0..u64::MAX {
            let number = self.to_tell.pop_front()?;
            if let Some(turn) = self.tell(number) {
                return Some(turn);
            }
        }
        None
    }

    /// Sends what waits, once a connection.
    pub(crate) fn send_all(&mut self) -> Result<(), NoMemory>
        ensures to_read { self.new.to_read.items ≡ self.old.to_read.items }
        ensures turns { self.new.turns ≡ self.old.turns }
    {
        for _ in 0..self.to_send.len() {
            let Some(number) = self.to_send.pop_front() else {
                return Ok(());
            };
            self.send_to(number)?;
        }
        Ok(())
    }

    /// Offers bytes to a connection: how many were taken; None where it is not there or its peer is gone, and then it is
    /// removed.
    #[inline(always)]
    pub(crate) fn offer(&mut self, number: u32, bytes: &[u8]) -> Result<Option<u32>, NoMemory>
        requires { length bytes.now < 2 ^ 32 }
        ensures { IfOk result (λ taken. IfSome taken (λ n. n ≤ length bytes.now)) }
    {
        let Some(place) = self.place_of(number) else {
            return Ok(None);
        };
        let Some(connection) = self.connections.get_mut(place) else {
            return Ok(None);
        };
        match connection.stage {
            Stage::Served => {}
            Stage::Failed => {
                self.remove(place);
                return Ok(None);
            }
            Stage::Leaving | Stage::Parting => return Ok(None),
        }
        match connection.offer(bytes, self.beat)? {
            Some(taken) => {
                if !connection.to_send && connection.waits() {
                    connection.to_send = true;
                    self.to_send.push_back(number)?;
                }
                Ok(Some(taken as u32))
            }
            None => {
                self.remove(place);
                Ok(None)
            }
        }
    }

    /// Offers a run of bytes to a connection, which takes all of them without a sending; false where it is not served, there is
    /// no room for all, or no memory, and then nothing has changed.
    #[inline(always)]
    pub(crate) fn offer_run(&mut self, number: u32, run: &[u8]) -> bool
        ensures refused { result ≡ false → self.new.to_send.items ≡ self.old.to_send.items }
    {
        let Some(place) = self.place_of(number) else {
            return false;
        };
        let Some(connection) = self.connections.get_mut(place) else {
            return false;
        };
        match connection.stage {
            Stage::Served => {}
            Stage::Failed | Stage::Leaving | Stage::Parting => return false,
        }
        if connection.to_send {
            return connection.out.put_all(run);
        }
        // Its place in the queue is there before the bytes are taken.
        if self.to_send.reserve(1).is_err() || !connection.out.put_all(run) {
            return false;
        }
        connection.to_send = true;
        self.to_send.push_back_reserved(number);
        true
    }

    /// The server is done with a connection: what waits for it is still sent.
    pub(crate) fn shut(&mut self, number: u32) -> Result<(), NoMemory>
        ensures to_read { self.new.to_read.items ≡ self.old.to_read.items }
        ensures turns { self.new.turns ≡ self.old.turns }
    {
        match self.place_of(number) {
            Some(place) => self.leave(place),
            None => Ok(()),
        }
    }

    /// This beat is come to: connections that the server is done with do not stay for ever.
    pub(crate) fn pass_tick(&mut self, beat: u64)
        ensures beat { self.new.beat ≡ beat }
        ensures to_read { self.new.to_read.items ≡ self.old.to_read.items }
        ensures turns { self.new.turns ≡ self.old.turns }
    {
        self.beat = beat;
        self.connections.retain_mut(|connection| connection.stays());
    }

    /// Whether a connection has been silent for so long that it loses its place where another waits.
    pub(crate) fn is_one_silent(&self) -> bool
        ensures { result ≡ false → NoneIsSilent self.now.connections.items self.now.beat }
    {
        match longest_silent(self.connections.as_slice(), self.beat) {
            Some(_) => true,
            None => false,
        }
    }

    /// The connection that is silent longest loses its place, if that is for five minutes at least.
    #[tactic(auto, using(crate::proofs::SilenceLemmas::closes_silent))]
    pub(crate) fn close_silent(&mut self) -> Option<Happened>
        ensures closes { OnSome result (ClosesSilent self.old self.new) }
    {
        let place = longest_silent(self.connections.as_slice(), self.beat)?;
        let number = self.connections.get(place)?.number;
        self.fail(place, number)
    }

    /// Whether bytes wait for a peer.
    pub(crate) fn waits(&self) -> bool
        ensures { result ≡ list_any has_waiting self.now.connections.items }
    {
        self.connections.iter().any(|connection| connection.waits())
    }

    /// The peer of a connection that is there.
    #[tactic(auto, using(crate::proofs::PeerLemmas::peer_found))]
    pub(crate) fn peer_of(&self, number: u32) -> Option<SocketAddr>
        ensures { IfSome result (IsPeerOf self.now.connections.items number) }
    {
        let place = self
            .connections
            .partition_point(|connection| connection.number < number);
        let connection = self.connections.get(place)?;
        if connection.number != number {
            return None;
        }
        Some(connection.peer)
    }

    // The place of a connection, which mostly is the one that was looked up last.
    #[inline(always)]
    fn place_of(&mut self, number: u32) -> Option<usize>
        ensures within { IfSome result (λ place. place < vec_len self.old.connections) }
        ensures found { IfSome result (HoldsAt (λ (c : Connection). c.number ≡ number) self.old.connections.items) }
        ensures same { self.new ≡ record self.old { near = self.new.near } }
    {
        if let Some(connection) = self.connections.get(self.near) {
            if connection.number == number {
                return Some(self.near);
            }
        }
        self.place_among(number)
    }

    // The same by the order of the numbers.
    fn place_among(&mut self, number: u32) -> Option<usize>
        ensures within { IfSome result (λ place. place < vec_len self.old.connections) }
        ensures found { IfSome result (HoldsAt (λ (c : Connection). c.number ≡ number) self.old.connections.items) }
        ensures same { self.new ≡ record self.old { near = self.new.near } }
    {
        let place = self
            .connections
            .partition_point(|connection| connection.number < number);
        if self.connections.get(place)?.number != number {
            return None;
        }
        self.near = place;
        Some(place)
    }

    fn remove(&mut self, place: usize)
        ensures gone { place < vec_len self.old.connections → self.new.connections.items ≡ remove self.old.connections.items place }
        ensures same { KeepsQueues self.old self.new }
    {
        if place < self.connections.len() {
            let _gone = self.connections.remove(place);
        }
    }

    // The connection is to be read.
    #[tactic(auto, using(crate::proofs::QueueLemmas::longer_same, crate::proofs::QueueLemmas::longer_one))]
    fn list_to_read(&mut self, place: usize, hung: bool) -> Result<(), NoMemory>
        ensures order { IsLongerBy self.old.to_read.items self.new.to_read.items }
        ensures once { OnOk result (place < vec_len self.old.connections
            → HoldsAt (λ (c : Connection). self.new.to_read.items
            ≡ (if c.to_read then self.old.to_read.items else self.old.to_read.items ++ c.number ∷ [])) self.old.connections.items place) }
        ensures flag { OnOk result (place < vec_len self.old.connections → HoldsAt (λ (c : Connection). c.to_read ≡ true) self.new.connections.items place) }
        ensures turns { self.new.turns ≡ self.old.turns }
        ensures to_send { self.new.to_send.items ≡ self.old.to_send.items }
        ensures count { vec_len self.new.connections ≡ vec_len self.old.connections }
    {
        let Some(connection) = self.connections.get_mut(place) else {
            return Ok(());
        };
        connection.hung = connection.hung || hung;
        if !connection.to_read {
            connection.to_read = true;
            self.to_read.push_back(connection.number)?;
        }
        Ok(())
    }

    // The connection is to be sent what waits for it, if anything.
    #[tactic(auto, using(crate::proofs::QueueLemmas::longer_same, crate::proofs::QueueLemmas::longer_one))]
    fn list_to_send(&mut self, place: usize) -> Result<(), NoMemory>
        ensures order { IsLongerBy self.old.to_send.items self.new.to_send.items }
        ensures to_read { self.new.to_read.items ≡ self.old.to_read.items }
        ensures turns { self.new.turns ≡ self.old.turns }
    {
        let Some(connection) = self.connections.get_mut(place) else {
            return Ok(());
        };
        if !connection.to_send && connection.waits() {
            connection.to_send = true;
            self.to_send.push_back(connection.number)?;
        }
        Ok(())
    }

    // Reads a connection in its turn.
    fn read_from(&mut self, number: u32, buffer: &mut [u8]) -> Option<Happened>
        ensures own { IfSome result (TellsOf number) }
        ensures turns { self.new.turns ≡ self.old.turns }
    {
        let place = self.place_of(number)?;
        let room = buffer.len();
        match read_at(&mut self.connections, place, buffer, self.beat) {
            Arrived::Bytes(n) => self.take_piece(place, number, &buffer[..n], n == room),
            Arrived::Nothing => None,
            Arrived::End => self.end(place, number),
            Arrived::Failed => self.fail(place, number),
        }
    }

    // A piece came; where it filled the buffer or the peer sends no more, there is something left to read.
    fn take_piece(
        &mut self,
        place: usize,
        number: u32,
        bytes: &[u8],
        full: bool,
    ) -> Option<Happened>
        ensures own { IfSome result (TellsOf number) }
        ensures turns { self.new.turns ≡ self.old.turns }
    {
        let connection = self.connections.get_mut(place)?;
        let served = connection.stage == Stage::Served;
        if full || connection.hung {
            if self.list_to_read(place, false).is_err() {
                return Some(Happened::Memory);
            }
        }
        if !served {
            return None;
        }
        match copied_in(self.alloc, &mut self.spare, bytes) {
            Ok(piece) => Some(Happened::Piece(number, piece)),
            Err(NoMemory) => Some(Happened::Memory),
        }
    }

    // The peer sends no more. That is told once all is taken that waits for it in the server.
    fn end(&mut self, place: usize, number: u32) -> Option<Happened>
        ensures own { IfSome result (TellsOf number) }
        ensures turns { self.new.turns ≡ self.old.turns }
    {
        let connection = self.connections.get_mut(place)?;
        connection.ended = true;
        match connection.stage {
            Stage::Served => match self.to_tell.push_back(number) {
                Ok(()) => None,
                Err(_) => Some(Happened::Memory),
            },
            Stage::Failed | Stage::Leaving => None,
            Stage::Parting => {
                self.remove(place);
                None
            }
        }
    }

    // The connection failed when it was read, or its peer is taken for vanished.
    fn fail(&mut self, place: usize, number: u32) -> Option<Happened>
        ensures closed { IfSome result (λ turn. turn ≡ Happened.Closed number) }
        ensures gone { place < vec_len self.old.connections → self.new.connections.items ≡ remove self.old.connections.items place }
        ensures turns { self.new.turns ≡ self.old.turns }
    {
        let stage = self.connections.get(place)?.stage;
        self.remove(place);
        match stage {
            Stage::Served | Stage::Failed => Some(Happened::Closed(number)),
            Stage::Leaving | Stage::Parting => None,
        }
    }

    // Tells what is to be told of a connection.
    fn tell(&mut self, number: u32) -> Option<Happened>
        ensures own { IfSome result (TellsOf number) }
        ensures told { IfSome result IsTold }
    {
        let place = self.place_of(number)?;
        let connection = self.connections.get_mut(place)?;
        match connection.stage {
            Stage::Served => {}
            Stage::Failed => {
                self.remove(place);
                return Some(Happened::Closed(number));
            }
            Stage::Leaving | Stage::Parting => return None,
        }
        if connection.takes_again() {
            connection.short = false;
            // Where its peer sends no more, that is told behind what the server still offers.
            if connection.ended && self.to_tell.push_back(number).is_err() {
                return Some(Happened::Memory);
            }
            return Some(Happened::Writable(number));
        }
        if !connection.ended || connection.short {
            return None;
        }
        match self.leave(place) {
            Ok(()) => Some(Happened::Closed(number)),
            Err(NoMemory) => Some(Happened::Memory),
        }
    }

    // The server is done with a connection.
    fn leave(&mut self, place: usize) -> Result<(), NoMemory>
        ensures to_read { self.new.to_read.items ≡ self.old.to_read.items }
        ensures turns { self.new.turns ≡ self.old.turns }
    {
        let Some(connection) = self.connections.get_mut(place) else {
            return Ok(());
        };
        connection.leave();
        if connection.waits() {
            self.list_to_send(place)?;
        } else {
            self.part(place);
        }
        Ok(())
    }

    // All was sent to a connection that the server is done with.
    fn part(&mut self, place: usize)
        ensures { KeepsQueues self.old self.new }
    {
        let Some(connection) = self.connections.get_mut(place) else {
            return;
        };
        if connection.ended {
            self.remove(place);
        } else {
            connection.part();
        }
    }

    // Sends what waits for a connection.
    fn send_to(&mut self, number: u32) -> Result<(), NoMemory>
        ensures to_read { self.new.to_read.items ≡ self.old.to_read.items }
        ensures turns { self.new.turns ≡ self.old.turns }
    {
        let Some(place) = self.place_of(number) else {
            return Ok(());
        };
        let Some(connection) = self.connections.get_mut(place) else {
            return Ok(());
        };
        connection.to_send = false;
        let sent = connection.send(self.beat);
        match connection.stage {
            Stage::Served => {
                if !sent {
                    connection.stage = Stage::Failed;
                }
                if !sent || connection.takes_again() {
                    self.to_tell.push_back(number)?;
                }
            }
            Stage::Leaving => {
                if !sent {
                    self.remove(place);
                } else if !connection.waits() {
                    self.part(place);
                }
            }
            Stage::Failed | Stage::Parting => {}
        }
        Ok(())
    }
}

// Reads a connection in its turn.
fn read_at(connections: &mut Vec<Connection>, place: usize, buffer: &mut [u8], now: u64) -> Arrived
    ensures within { ArrivedWithin result (length buffer.new) }
    ensures same { vec_len connections.new ≡ vec_len connections.old }
{
    match connections.get_mut(place) {
        Some(connection) => connection.read(buffer, now),
        None => Arrived::Nothing,
    }
}

// A copy of some bytes, in the spare room.
fn copied_in(alloc: Global, spare: &mut Octets, bytes: &[u8]) -> Result<Octets, NoMemory>
    ensures { IfOk result (λ piece. piece ≡ bytes.now) }
{
    let mut piece = mem::replace(spare, Octets::new(alloc));
    piece.cut(0);
    piece.put(alloc, bytes)?;
    Ok(piece)
}

//! One connection over a socket.

ghost use Rattle.std.specs.Prelude.{false, ◌≡◌, ◌≤◌, ◌<◌, ◌++◌, length, take, drop, IfOk, IfSome, IsTrue};
ghost use Rattle.ads_edge.specs.Arrived.{ArrivedWithin};
ghost use Rattle.ads_edge.specs.Written.{WrittenWithin, alive_after as written_alive, is_there, taken_of};

use crate::arrived::Arrived;
use crate::out_buffer::OutBuffer;
use crate::stage::Stage;
use crate::written::Written;
use ads_base::NoMemory;
use mio::net::TcpStream;
use std::alloc::Global;
use std::io::{ErrorKind, Read, Write};
use std::net::{Shutdown, SocketAddr};

/// How many ticks a connection that the server is done with may stand without taking a byte: 30 s.
pub(crate) const STALLED_TICKS: u32 = 3_000;

/// How many ticks a peer to which all was sent has to close: 1 s.
pub(crate) const PARTING_TICKS: u32 = 100;

/// A connection and what waits for its peer.
#[derive(Drop)]
pub(crate) struct Connection {
    pub(crate) number: u32,
    pub(crate) stage: Stage,
    // It is among those to be read, and among those to be sent to.
    pub(crate) to_read: bool,
    pub(crate) to_send: bool,
    // The poll told that its peer sends no more; and all that it sent was read.
    pub(crate) hung: bool,
    pub(crate) ended: bool,
    // An offer was short, and that it takes bytes again was not told since.
    pub(crate) short: bool,
    // The beat at which bytes came or were taken last, or at which it was opened.
    pub(crate) alive: u64,
    pub(crate) patience: u32,
    pub(crate) out: OutBuffer,
    pub(crate) stream: TcpStream,
    pub(crate) peer: SocketAddr,
}

impl Connection {
    ghost use Rattle.ads_edge.specs.Connection.{IsOpened, IsRest, MaySend, a_tick_older, alive_after, has_waiting, is_left, left, parted, stays, takes_again};
    ghost use Rattle.ads_edge.specs.Waiting.{waiting};

    /// A connection that was accepted at this beat and gets this number.
    pub(crate) fn new(
        alloc: Global,
        number: u32,
        now: u64,
        stream: TcpStream,
        peer: SocketAddr,
    ) -> Connection
        ensures opened { IsOpened number now result }
        ensures peer { result.peer ≡ peer }
    {
        Connection {
            number,
            stage: Stage::Served,
            to_read: false,
            to_send: false,
            hung: false,
            ended: false,
            short: false,
            alive: now,
            patience: 0,
            out: OutBuffer::new(alloc),
            stream,
            peer,
        }
    }

    /// Reads once in its turn; bytes that come are a sign of life.
    pub(crate) fn read(&mut self, buffer: &mut [u8], now: u64) -> Arrived
        ensures within { ArrivedWithin result (length buffer.new) }
        ensures same { self.new ≡ record self.old { to_read = false; alive = alive_after result now self.old.alive } }
    {
        self.to_read = false;
        let came = came_over(&mut self.stream, buffer);
        match came {
            Arrived::Bytes(_) => self.alive = now,
            Arrived::Nothing | Arrived::End | Arrived::Failed => {}
        }
        came
    }

    /// Takes as many first bytes as find room, and tells how many; None where the peer is gone. What was taken stands in order
    /// behind what waited. Where not all were taken it is short.
    #[tactic(auto, using(crate::proofs::RestLemmas::rest_same, crate::proofs::RestLemmas::rest_taken))]
    pub(crate) fn offer(&mut self, bytes: &[u8], now: u64) -> Result<Option<usize>, NoMemory>
        ensures within { IfOk result (λ taken. IfSome taken (λ n. n ≤ length bytes.now)) }
        ensures taken { IfOk result (λ taken. IfSome taken (λ n. IsRest (waiting self.old.out ++ take n bytes.now) (waiting self.new.out))) }
        ensures short { IfOk result (λ taken. IfSome taken (λ n. n < length bytes.now → IsTrue self.new.short)) }
    {
        let first = self.out.put(bytes)?;
        if first == bytes.len() {
            return Ok(Some(first));
        }
        // The buffer is full, so it is sent at once.
        if !self.send(now) {
            return Ok(None);
        }
        let more = self.out.put(&bytes[first..])?;
        self.short = first + more < bytes.len();
        Ok(Some(first + more))
    }

    /// Sends what waits as far as the socket takes it by one writing; false where the peer is gone. Bytes that it takes are a
    /// sign of life.
    #[tactic(auto, using(crate::proofs::RestLemmas::rest_same, crate::proofs::RestLemmas::rest_written))]
    pub(crate) fn send(&mut self, now: u64) -> bool
        ensures rest { IsRest (waiting self.old.out) (waiting self.new.out) }
        ensures same { MaySend self.old self.new }
    {
        if self.out.is_empty() {
            return true;
        }
        let written = written_to(&mut self.stream, self.out.waiting());
        self.took(written, now)
    }

    // The socket took so many first bytes of what waits; false where the peer is gone.
    fn took(&mut self, written: Written, now: u64) -> bool
        requires { WrittenWithin written (length (waiting self.old.out)) }
        ensures answer { result ≡ is_there written }
        ensures rest { waiting self.new.out ≡ drop (taken_of written) (waiting self.old.out) }
        ensures alive { self.new.alive ≡ written_alive written now self.old.alive }
        ensures same { MaySend self.old self.new }
    {
        match written {
            Written::Bytes(n) => {
                self.out.sent(n);
                self.patience = STALLED_TICKS;
                self.alive = now;
                true
            }
            Written::Full => true,
            Written::Failed => false,
        }
    }

    /// Whether the server is done with it.
    pub(crate) fn is_left(&self) -> bool
        ensures { result ≡ is_left self.now.stage }
    {
        match self.stage {
            Stage::Served | Stage::Failed => false,
            Stage::Leaving | Stage::Parting => true,
        }
    }

    /// Whether bytes wait to be sent.
    pub(crate) fn waits(&self) -> bool
        ensures { result ≡ has_waiting self.now }
    {
        !self.out.is_empty()
    }

    /// Whether it may be told that bytes are taken again.
    pub(crate) fn takes_again(&self) -> bool
        ensures { result ≡ takes_again self.now }
    {
        self.short && self.out.has_room()
    }

    /// The server is done with it.
    pub(crate) fn leave(&mut self)
        ensures { self.new ≡ left self.old }
    {
        self.stage = Stage::Leaving;
        self.patience = STALLED_TICKS;
    }

    /// All was sent, and the peer is told so.
    pub(crate) fn part(&mut self)
        ensures { self.new ≡ parted self.old }
    {
        let _ = self.stream.shutdown(Shutdown::Write);
        self.stage = Stage::Parting;
        self.patience = PARTING_TICKS;
    }

    /// A tick passes; false where the server is done with it and its time is over.
    pub(crate) fn stays(&mut self) -> bool
        ensures answer { result ≡ stays self.old }
        ensures older { self.new ≡ a_tick_older self.old }
    {
        if !self.is_left() {
            return true;
        }
        self.patience = self.patience.saturating_sub(1);
        self.patience > 0
    }
}

// Reads once.
fn came_over(stream: &mut TcpStream, buffer: &mut [u8]) -> Arrived
    ensures within { ArrivedWithin result (length buffer.new) }
    ensures same { stream.new ≡ stream.old }
{
    for _ in 0..u64::MAX {
        match stream.read(buffer) {
            Ok(0) => return Arrived::End,
            Ok(n) => return Arrived::Bytes(n),
            Err(error) => {
                if error.kind() == ErrorKind::WouldBlock {
                    return Arrived::Nothing;
                }
                if error.kind() != ErrorKind::Interrupted {
                    return Arrived::Failed;
                }
            }
        }
    }
    Arrived::Failed
}

// Writes once.
fn written_to(stream: &mut TcpStream, bytes: &[u8]) -> Written
    ensures within { WrittenWithin result (length bytes.now) }
    ensures same { stream.new ≡ stream.old }
{
    for _ in 0..u64::MAX {
        match stream.write(bytes) {
            Ok(n) => return Written::Bytes(n),
            Err(error) => {
                if error.kind() == ErrorKind::WouldBlock {
                    return Written::Full;
                }
                if error.kind() != ErrorKind::Interrupted {
                    return Written::Failed;
                }
            }
        }
    }
    Written::Failed
}

//! The doors of a wire: listening sockets, and whom they let in.

ghost use Rattle.std.specs.Prelude.{◌≡◌, true, false, IfSome, OnSome, IfOk, IsTrue, vec_len};
ghost use Rattle.std.specs.IoError.{raw_os_error};
ghost use Rattle.std.specs.Net.Socket.{socket_ip};
ghost use Rattle.ads_edge.specs.AllowedNet.{allows as is_let_in};

use crate::door_plan::DoorPlan;
use crate::given::given_door;
use crate::guest::Guest;
use crate::listening_at::address_of;
use crate::refusal::{Refusal, tell};
use crate::refused_peers::RefusedPeers;
use crate::used_up::are_used_up;
use crate::{AllowedNet, allows};
use ads_base::NoMemory;
use mio::net::{TcpListener, TcpStream};
use mio::{Interest, Registry, Token};
use std::alloc::Global;
use std::io::{self, ErrorKind};
use std::net::{Net, SocketAddr};

/// The token of the first door; those of the others follow. That of a connection is its number, which is below.
pub(crate) const DOORS: usize = 4_294_967_296;

/// What stands between two addresses.
const BETWEEN: &str = ", ";

/// The place that a line names where a socket that was given can't be used.
const GIVEN: &str = "LISTEN_FDS";

/// Listening sockets that are polled.
#[derive(Drop)]
pub(crate) struct Doors {
    pub(crate) listeners: Vec<TcpListener>,
    pub(crate) allowed: Vec<AllowedNet>,
    // The place of the door that is asked next, and how many doors are to be asked before nobody knocks.
    pub(crate) next: usize,
    pub(crate) left: usize,
    pub(crate) refused: RefusedPeers,
    // How often nobody could be accepted since no descriptor was left.
    pub(crate) without: u64,
}

impl Doors {
    ghost use Rattle.ads_edge.specs.Doors.{KeepsDoors, is_guarded, knocks, without_then};

    /// Doors at these addresses, one behind another with a comma and a blank between them; or those that were given. None where
    /// one can't be opened, and why is told on standard error.
    pub(crate) fn open<R: Net + Eprint>(
        alloc: Global,
        rt: &R,
        plan: &DoorPlan,
        listen: &str,
        registry: &Registry,
    ) -> Result<Option<Doors>, NoMemory> {
        let mut listeners = Vec::new(alloc);
        let all = if plan.given > 0 {
            take_given(rt, plan, registry, &mut listeners)?
        } else {
            listen_at(rt, plan, listen, registry, &mut listeners)?
        };
        if !all {
            return Ok(None);
        }
        Ok(Some(Doors {
            allowed: copy_of(alloc, plan.allowed.as_slice())?,
            next: 0,
            left: listeners.len(),
            listeners,
            refused: RefusedPeers::new(),
            without: 0,
        }))
    }

    /// Someone may wait at each door.
    pub(crate) fn knock(&mut self)
        ensures left { self.new.left ≡ vec_len self.old.listeners }
        ensures same { KeepsDoors self.old self.new }
    {
        self.left = self.listeners.len();
    }

    /// Whether someone may wait to be let in.
    pub(crate) fn knocks(&self) -> bool
        ensures { result ≡ knocks self.now }
    {
        self.left != 0
    }

    /// Whether not all are let in.
    pub(crate) fn is_guarded(&self) -> bool
        ensures { result ≡ is_guarded self.now }
    {
        !self.allowed.is_empty()
    }

    /// Asks the next door once. Who waits there and is not to be let in is refused: the connection is closed, and noted.
    pub(crate) fn ask(&mut self) -> Option<Guest>
        ensures asked { knocks self.old ≡ false → result ≡ None }
        ensures allowed { IfSome result (λ guest. IsTrue (is_let_in self.old.allowed.items (socket_ip guest.peer))) }
        ensures refused { OnSome result (self.new.refused ≡ self.old.refused) }
        ensures list { self.new.allowed ≡ self.old.allowed }
    {
        if self.left == 0 {
            return None;
        }
        match accepted(&self.listeners, self.next) {
            Ok((stream, peer)) => {
                self.turn();
                self.knock();
                self.let_in(stream, peer)
            }
            Err(error) => {
                self.miss(&error);
                None
            }
        }
    }

    // Nobody was accepted at the door that was asked, for this reason.
    fn miss(&mut self, error: &io::Error)
        requires { knocks self.old ≡ true }
        ensures without { self.new.without ≡ without_then (raw_os_error error.now) self.old.without }
        ensures same { KeepsDoors (record self.old { without = self.new.without }) self.new }
    {
        if are_used_up(error) {
            self.without = self.without.saturating_add(1);
        }
        let again = error.kind() == ErrorKind::Interrupted
            || error.kind() == ErrorKind::ConnectionAborted;
        if !again {
            self.turn();
            self.left -= 1;
        }
    }

    // The next door has its turn.
    fn turn(&mut self)
        ensures same { KeepsDoors self.old self.new }
        ensures left { self.new.left ≡ self.old.left }
    {
        let after = self.next.saturating_add(1);
        self.next = if after < self.listeners.len() {
            after
        } else {
            0
        };
    }

    // Lets a peer in, or refuses it.
    fn let_in(&mut self, stream: TcpStream, peer: SocketAddr) -> Option<Guest>
        ensures allowed { IfSome result (λ guest. IsTrue (is_let_in self.old.allowed.items (socket_ip guest.peer))) }
        ensures refused { OnSome result (self.new.refused ≡ self.old.refused) }
        ensures list { self.new.allowed ≡ self.old.allowed }
    {
        if allows(self.allowed.as_slice(), peer.ip()) {
            return Some(Guest { stream, peer });
        }
        self.refused.note(peer);
        None
    }
}

// Accepts who waits at the door at this place.
fn accepted(listeners: &Vec<TcpListener>, place: usize) -> io::Result<(TcpStream, SocketAddr)> {
    match listeners.get(place) {
        Some(listener) => listener.accept(),
        None => Err(io::Error::from(ErrorKind::WouldBlock)),
    }
}

fn copy_of(alloc: Global, nets: &[AllowedNet]) -> Result<Vec<AllowedNet>, NoMemory>
    ensures { IfOk result (λ copy. copy.items ≡ nets.now) }
{
    let mut copy = Vec::new(alloc);
    copy.extend_from_slice(nets)?;
    Ok(copy)
}

// Listens at each address; false where that can't be had at one of them, which is told.
fn listen_at<R: Net + Eprint>(
    rt: &R,
    plan: &DoorPlan,
    listen: &str,
    registry: &Registry,
    listeners: &mut Vec<TcpListener>,
) -> Result<bool, NoMemory> {
    for place in listen.split(BETWEEN) {
        match polled(listening(rt, place), registry, listeners.len()) {
            Ok(listener) => listeners.push(listener)?,
            Err(refusal) => {
                tell(rt, plan.program, place, refusal);
                return Ok(false);
            }
        }
    }
    Ok(true)
}

// Takes over each socket that was given; false where one of them can't be used, which is told.
fn take_given<R: Eprint>(
    rt: &R,
    plan: &DoorPlan,
    registry: &Registry,
    listeners: &mut Vec<TcpListener>,
) -> Result<bool, NoMemory> {
    for n in 0..plan.given {
        match polled(taken(n), registry, listeners.len()) {
            Ok(listener) => listeners.push(listener)?,
            Err(refusal) => {
                tell(rt, plan.program, GIVEN, refusal);
                return Ok(false);
            }
        }
    }
    Ok(true)
}

// A socket that listens there.
fn listening<R: Net>(rt: &R, place: &str) -> Result<TcpListener, Refusal> {
    let Some(address) = address_of(place) else {
        return Err(Refusal::NoAddress);
    };
    match TcpListener::bind(rt, address) {
        Ok(listener) => Ok(listener),
        Err(error) => Err(Refusal::of(&error)),
    }
}

// The n-th socket that was given.
fn taken(n: u16) -> Result<TcpListener, Refusal> {
    match given_door(n) {
        Ok(listener) => Ok(listener),
        Err(error) => Err(Refusal::of(&error)),
    }
}

// A listening socket that is polled as the door at this place.
fn polled(
    listener: Result<TcpListener, Refusal>,
    registry: &Registry,
    place: usize,
) -> Result<TcpListener, Refusal> {
    let mut listener = match listener {
        Ok(listener) => listener,
        Err(refusal) => return Err(refusal),
    };
    let token = Token(DOORS.saturating_add(place));
    match registry.register(&mut listener, token, Interest::READABLE) {
        Ok(()) => Ok(listener),
        Err(error) => Err(Refusal::of(&error)),
    }
}

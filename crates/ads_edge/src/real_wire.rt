//! Real sockets and the system's clock.

ghost use Rattle.std.specs.Prelude.{◌≡◌, ◌<◌, ◌^◌, IfSome, length};

use crate::door_plan::DoorPlan;
use crate::happened::Happened;
use crate::sockets::Sockets;
use crate::{AllowedNet, WatchPlan};
use ads_base::NoMemory;
use ads_outside::{Event, Next, Offer, Shut, Started, Wire};
use std::alloc::Global;
use std::net::{Net, SocketAddr};
use std::rt::Files as SystemFiles;
use std::time::Clock;

/// TCP over the network that a runtime reaches: a tick every 10 ms, pieces of at most 65,536 bytes, at most 64 connections at
/// once. What it gives and what peers take is not told.
///
/// What is offered to a connection is gathered, at most 262,144 bytes, and sent before the wire waits again; a connection
/// that was shut stays till its peer has taken that, is gone, or takes nothing for 30 s. The named description is read again each second, and is
/// given where it holds other bytes than last, at once or, with a plan that says so, once they stood unchanged for some seconds.
#[derive(Drop)]
pub struct RealWire<R: Net + Clock + SystemFiles + Eprint + Drop> {
    alloc: Global,
    rt: R,
    buffer: Vec<u8>,
    plan: DoorPlan,
    sockets: Option<Sockets>,
    // The number that was opened last, and counts.
    last: u32,
    events: u64,
    stops: u64,
    faults: u64,
    wants: u64,
}

impl<R: Net + Clock + SystemFiles + Eprint + Drop> RealWire<R> {
    ghost use Rattle.ads_edge.specs.Sockets.{IsPeerIn, failed_readings, refused_count, refused_peer, without_descriptor};

    /// A wire that is not started, with a buffer to read by.
    pub fn new(alloc: Global, rt: R) -> Result<RealWire<R>, NoMemory> {
        RealWire::with_plan(alloc, rt, DoorPlan::open_to_all(alloc))
    }

    /// The same with doors of its own: `listen` of `start` is one address or several, with a comma and a blank between them; where
    /// the process was given listening sockets, these are its doors and `listen` is a name. Who is in none of the allowed nets is
    /// refused: its connection is closed at once, and opens none of the wire. With no net all are let in. A line on standard error
    /// begins with the program's name. The description is watched as the plan says.
    pub fn with_doors(
        alloc: Global,
        rt: R,
        program: &'static str,
        given: u16,
        allowed: Vec<AllowedNet>,
        watch: WatchPlan,
    ) -> Result<RealWire<R>, NoMemory> {
        let plan = DoorPlan {
            program,
            given,
            allowed,
            watch,
        };
        RealWire::with_plan(alloc, rt, plan)
    }

    fn with_plan(alloc: Global, rt: R, plan: DoorPlan) -> Result<RealWire<R>, NoMemory> {
        Ok(RealWire {
            alloc,
            rt,
            buffer: crate::real_files::empty_buffer(alloc)?,
            plan,
            sockets: None,
            last: 0,
            events: 0,
            stops: 0,
            faults: 0,
            wants: 0,
        })
    }

    /// The peer of a connection that is there.
    pub fn peer_of(&self, conn: u32) -> Option<SocketAddr>
        ensures { IfSome result (IsPeerIn self.now.sockets conn) }
    {
        match &self.sockets {
            Some(sockets) => sockets.peers.peer_of(conn),
            None => None,
        }
    }

    /// How many peers were refused since the start.
    pub fn refused(&self) -> u64
        ensures { result ≡ refused_count self.now.sockets }
    {
        match &self.sockets {
            Some(sockets) => sockets.doors.refused.count,
            None => 0,
        }
    }

    /// The n-th peer that was refused, counted from 0, if it is one of the last 16.
    pub fn refused_peer(&self, n: u64) -> Option<SocketAddr>
        ensures { result ≡ refused_peer n self.now.sockets }
    {
        match &self.sockets {
            Some(sockets) => sockets.doors.refused.at(n),
            None => None,
        }
    }

    /// How many readings of the named description failed since the start: it could not be read, has more than 16,777,216 bytes,
    /// or memory was wanting.
    pub fn failed_readings(&self) -> u64
        ensures { result ≡ failed_readings self.now.sockets }
    {
        match &self.sockets {
            Some(sockets) => sockets.watch.failed,
            None => 0,
        }
    }

    /// How often since the start nobody could be accepted since no descriptor was left.
    pub fn without_descriptor(&self) -> u64
        ensures { result ≡ without_descriptor self.now.sockets }
    {
        match &self.sockets {
            Some(sockets) => sockets.doors.without,
            None => 0,
        }
    }
}

impl<R: Net + Clock + SystemFiles + Eprint + Drop> Wire for RealWire<R> {
    ghost use Rattle.ads_edge.specs.Sockets.{state_of_sockets};

    ghost state = { λ w. state_of_sockets w.last w.events w.stops w.faults w.wants };

    ghost Kept = { Unit {0} };

    ghost kept = { λ _. tt };

    fn faults(&self) -> u64 {
        self.faults
    }

    fn stops(&self) -> u64 {
        self.stops
    }

    fn start(&mut self, listen: &str, name: &str, first: &[u8]) -> Started {
        match Sockets::open(self.alloc, &self.rt, &self.plan, listen, name, first) {
            Ok(Some(sockets)) => {
                self.sockets = Some(sockets);
                Started::Ready
            }
            Ok(None) => {
                self.faults = self.faults.saturating_add(1);
                self.stops = self.stops.saturating_add(1);
                Started::Failed
            }
            Err(NoMemory) => {
                self.wants = self.wants.saturating_add(1);
                Started::Memory
            }
        }
    }

    #[tactic(auto, using(crate::proofs::NumberLemmas::next_is_new, crate::proofs::NumberLemmas::next_number))]
    fn next(&mut self) -> Next {
        let number = self.last.checked_add(1);
        let turn = match &mut self.sockets {
            Some(sockets) => sockets.turn(&self.rt, number, self.buffer.as_mut_slice()),
            None => Happened::Failed,
        };
        match turn {
            Happened::Opened => match number {
                Some(number) => {
                    self.last = number;
                    self.events = self.events.saturating_add(1);
                    Next::Event(Event::Opened(number))
                }
                None => {
                    self.faults = self.faults.saturating_add(1);
                    self.stops = self.stops.saturating_add(1);
                    Next::Failed
                }
            },
            Happened::Piece(conn, bytes) => {
                self.events = self.events.saturating_add(1);
                Next::Event(Event::Piece(conn, bytes))
            }
            Happened::Closed(conn) => {
                self.events = self.events.saturating_add(1);
                Next::Event(Event::Closed(conn))
            }
            Happened::Writable(conn) => {
                self.events = self.events.saturating_add(1);
                Next::Event(Event::Writable(conn))
            }
            Happened::Tick(moment) => {
                self.events = self.events.saturating_add(1);
                Next::Event(Event::Tick(moment))
            }
            Happened::Reload(bytes) => {
                self.events = self.events.saturating_add(1);
                Next::Event(Event::Reload(bytes))
            }
            Happened::Failed => {
                self.faults = self.faults.saturating_add(1);
                self.stops = self.stops.saturating_add(1);
                Next::Failed
            }
            Happened::Memory => {
                self.wants = self.wants.saturating_add(1);
                Next::Memory
            }
        }
    }

    fn take_back(&mut self, event: Event) {
        let bytes = match event {
            Event::Piece(_, bytes) => bytes,
            Event::Opened(_)
            | Event::Closed(_)
            | Event::Tick(_)
            | Event::Reload(_)
            | Event::Writable(_) => return,
        };
        if let Some(sockets) = &mut self.sockets {
            sockets.take_back(bytes);
        }
    }

    fn offer(&mut self, conn: u32, bytes: &[u8]) -> Offer {
        let taken = match &mut self.sockets {
            Some(sockets) => sockets.offer(conn, bytes),
            None => Ok(None),
        };
        match taken {
            Ok(Some(n)) => Offer::Took(n),
            Ok(None) => {
                self.faults = self.faults.saturating_add(1);
                Offer::Failed
            }
            Err(NoMemory) => {
                self.wants = self.wants.saturating_add(1);
                Offer::Memory
            }
        }
    }

    #[tactic(auto, using(crate::proofs::RunLemmas::takes_run))]
    fn offer_run(&mut self, conn: u32, run: &[u8]) -> bool {
        match &mut self.sockets {
            Some(sockets) => sockets.offer_run(conn, run),
            None => false,
        }
    }

    fn shut(&mut self, conn: u32) -> Shut {
        let shut = match &mut self.sockets {
            Some(sockets) => sockets.shut(conn),
            None => Ok(()),
        };
        match shut {
            Ok(()) => Shut::Done,
            Err(NoMemory) => {
                self.wants = self.wants.saturating_add(1);
                Shut::Memory
            }
        }
    }
}

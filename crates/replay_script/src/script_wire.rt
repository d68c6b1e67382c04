//! A wire that plays a script.

ghost use Rattle.std.specs.Prelude.{◌≡◌, ◌≢◌, ◌≤◌, ◌<◌, ◌^◌, ◌++◌, ◌∷◌, [], length, take, map, IsTrue, Some, None, IfOk, IfSome, IfNone, OnOk, OnErr};
ghost use Rattle.ads_outside.specs.declared.moves.Move.TheVariants as move;
ghost use Rattle.ads_outside.specs.Opened.{is_new, opened_in};
ghost use Rattle.serve_loop.specs.Leads.{events_in};
ghost use Rattle.replay_script.specs.Fresh.{OpenNew};
ghost use Rattle.replay_script.specs.Script.{line_meant};

use crate::number_list::NumberList;
use crate::rooms::Rooms;
use crate::{Script, ScriptLine};
use ads_base::{ListOf, NoMemory, Octets};
use ads_outside::{Event, Listening, Log, Move, Next, Offer, Shut, Started, Wire};
use std::alloc::Global;
use std::marker::Model;

/// Gives the events of a script one after another, answers offers as its lines say, and writes the log. A start and a
/// next event never fail.
#[derive(Drop)]
pub struct ScriptWire {
    alloc: Global,
    // An event that the log has was taken out of its line; a tick stands there.
    lines: Vec<ScriptLine>,
    // How many of the lines were read.
    at: usize,
    rooms: Rooms,
    failing: NumberList,
    // How many of them hold now: those of lines that were read since the last event hold from the next event on.
    settled: usize,
    log: Vec<Move>,
    starts: ListOf<Listening>,
    events: u64,
    ends: u64,
    faults: u64,
    wants: u64,
}

impl Model for ScriptWire {
    ghost use Rattle.std.specs.Prelude.{map, drop};
    ghost use Rattle.replay_script.specs.Script.{line_meant};
    ghost use Rattle.replay_script.specs.ScriptWire.{PlayedScript};
    ghost use Rattle.replay_script.specs.ToldLines.{lines_told, PlaysFrom};

    ghost Value = { PlayedScript };

    ghost view = { λ w. record {
      lines = lines_told (map line_meant w.lines.items) w.log.items;
      at = w.at;
      log = w.log.items;
      starts = w.starts;
      events = w.events;
      ends = w.ends;
      faults = w.faults;
      wants = w.wants;
    } };

    ghost invariant = { λ w. PlaysFrom (map line_meant w.lines.items) w.at w.log.items w.rooms w.failing w.settled w.ends };
}

impl ScriptWire {
    ghost use Rattle.spec_machine.specs.Peers.{first_peers};
    ghost use Rattle.replay_script.specs.Answering.{AnsweredSoFar};
    ghost use Rattle.replay_script.specs.ScriptWire.{unplayed, IsPlayed};

    /// A wire that plays a script whose lines open each connection once, as those do that were read.
    pub fn new(alloc: Global, script: Script) -> ScriptWire
        requires { OpenNew [] script }
        ensures { result ≡ unplayed script }
    {
        ScriptWire {
            alloc,
            lines: script.into_lines().into_vec(),
            at: 0,
            rooms: Rooms::new(alloc),
            failing: NumberList::new(alloc),
            settled: 0,
            log: Vec::new(alloc),
            starts: ListOf::new(alloc),
            events: 0,
            ends: 0,
            faults: 0,
            wants: 0,
        }
    }

    /// What happened, in order.
    pub fn into_log(self) -> Log
        ensures log { result ≡ self.log }
        ensures played { IsPlayed self }
        ensures so_far { AnsweredSoFar first_peers self.lines result }
        ensures few { events_in result ≤ length self.lines }
    {
        let ScriptWire {
            alloc: _,
            lines: _,
            at: _,
            rooms: _,
            failing: _,
            settled: _,
            log,
            starts: _,
            events: _,
            ends: _,
            faults: _,
            wants: _,
        } = self;
        ListOf::from_vec(log)
    }
}

impl ScriptWire {
    ghost use Rattle.std.specs.Prelude.{◌+◌, slice_get};
    ghost use Rattle.std.specs.Option.{option_map};
    ghost use Rattle.spec_machine.specs.ScriptLine.{Happens, TakesAtMost, FailsNext};
    ghost use Rattle.ads_outside.specs.declared.event.Event.TheVariants as event;
    ghost use Rattle.ads_outside.specs.Rose.{raised};
    ghost use Rattle.replay_script.specs.ScriptWire.{state_of_played, told_after};

    // The next event of the script, if there is one.
    fn give(&mut self) -> Result<Option<Event>, NoMemory>
        ensures told { IfOk result (λ given. state_of_played self.new ≡ told_after given self.old) }
        ensures is_new { IfOk result (λ given. IfSome given (λ e. IsTrue (is_new e (opened_in self.old.log)))) }
        ensures lines { self.new.lines ≡ self.old.lines }
        ensures no_memory { OnErr result (state_of_played self.new ≡ state_of_played self.old) }
    {
        loop {
            match self.peek()? {
                Some(ScriptLine::FailsNext(conn)) => self.fail_next(conn)?,
                Some(ScriptLine::Happens(event)) => return Ok(Some(self.happen(event)?)),
                Some(ScriptLine::TakesAtMost(conn, room)) => {
                    return Ok(Some(self.take_at_most(conn, room)?));
                }
                None => {
                    self.end();
                    return Ok(None);
                }
            }
        }
    }

    // A copy of the next line.
    fn peek(&self) -> Result<Option<ScriptLine>, NoMemory>
        ensures line { IfOk result (λ line. option_map line_meant line ≡ slice_get self.now.lines self.now.at) }
        ensures within { IfOk result (λ line. IfSome line (λ l. self.now.at < length self.now.lines)) }
        ensures small { length self.now.lines < 2 ^ 64 }
    {
        match self.lines.get(self.at) {
            Some(line) => Ok(Some(line.copy(self.alloc)?)),
            None => Ok(None),
        }
    }

    // A line that fails the next offer to a connection.
    fn fail_next(&mut self, conn: u32) -> Result<(), NoMemory>
        requires line { slice_get self.old.lines self.old.at ≡ Some (FailsNext conn) }
        requires small { self.old.at + 1 < 2 ^ 64 }
        ensures ok { OnOk result (self.new ≡ record self.old { at = self.old.at + 1 }) }
        ensures no_memory { OnErr result (self.new ≡ self.old) }
    {
        if self.failing.has(conn) {
            self.at += 1;
            return Ok(());
        }
        self.failing.push(conn)?;
        self.at += 1;
        Ok(())
    }

    // A line that is an event, of which this is a copy. The log takes the script's own.
    fn happen(&mut self, event: Event) -> Result<Event, NoMemory>
        requires line { slice_get self.old.lines self.old.at ≡ Some (Happens event) }
        requires small { self.old.at + 1 < 2 ^ 64 }
        ensures event { IfOk result (λ given. given ≡ event) }
        ensures told { OnOk result (state_of_played self.new ≡ told_after (Some event) self.old) }
        ensures is_new { OnOk result (IsTrue (is_new event (opened_in self.old.log))) }
        ensures lines { self.new.lines ≡ self.old.lines }
        ensures no_memory { OnErr result (self.new ≡ self.old) }
    {
        self.log.reserve(1)?;
        let taken = self.lines[self.at].take_event();
        self.log.push_reserved(Move::Event(taken));
        self.at += 1;
        self.settled = self.failing.len();
        self.events = self.events.saturating_add(1);
        Ok(event)
    }

    // A line that says how many further bytes a connection takes: it is writable.
    fn take_at_most(&mut self, conn: u32, room: u64) -> Result<Event, NoMemory>
        requires line { slice_get self.old.lines self.old.at ≡ Some (TakesAtMost conn room) }
        requires small { self.old.at + 1 < 2 ^ 64 }
        ensures event { IfOk result (λ given. given ≡ event.Writable conn) }
        ensures told { OnOk result (state_of_played self.new ≡ told_after (Some (event.Writable conn)) self.old) }
        ensures lines { self.new.lines ≡ self.old.lines }
        ensures no_memory { OnErr result (self.new ≡ self.old) }
    {
        let before = self.log.len();
        self.log.push(Move::Event(Event::Writable(conn)))?;
        match self.rooms.set(conn, room) {
            Ok(()) => {
                self.at += 1;
                self.settled = self.failing.len();
                self.events = self.events.saturating_add(1);
                Ok(Event::Writable(conn))
            }
            Err(NoMemory) => {
                self.log.truncate(before);
                Err(NoMemory)
            }
        }
    }

    // No line is left.
    fn end(&mut self)
        requires { slice_get self.old.lines self.old.at ≡ None }
        ensures { self.new ≡ record self.old { ends = raised self.old.ends } }
    {
        self.ends = self.ends.saturating_add(1);
    }

    // Memory was wanting in a call.
    fn want(&mut self)
        ensures wanted { self.new ≡ record self.old { wants = raised self.old.wants } }
        ensures later { self.old.wants ≤ self.new.wants }
    {
        self.wants = self.wants.saturating_add(1);
    }

    // An offer: it fails where the next one to its connection is to fail, else so many bytes are taken.
    fn put_offer(&mut self, conn: u32, bytes: &[u8]) -> Result<Option<u32>, NoMemory>
        requires { length bytes.now < 2 ^ 32 }
        ensures taken { IfOk result (λ answer. IfSome answer (λ n.
            self.new ≡ record self.old { log = self.old.log ++ move.Took conn (length bytes.now) (take n bytes.now) ∷ [] })) }
        ensures within { IfOk result (λ answer. IfSome answer (λ n. n ≤ length bytes.now)) }
        ensures lost { IfOk result (λ answer. IfNone answer
            (self.new ≡ record self.old { log = self.old.log ++ move.Lost conn ∷ []; faults = raised self.old.faults })) }
        ensures later { self.old.faults ≤ self.new.faults }
        ensures no_memory { OnErr result (self.new ≡ self.old) }
    {
        if self.failing.has_among(conn, self.settled) {
            self.log.push(Move::Lost(conn))?;
            self.faults = self.faults.saturating_add(1);
            return Ok(None);
        }
        let len = bytes.len() as u32;
        let n = self.rooms.most(conn, len);
        let taken = Octets::copy_of(self.alloc, &bytes[..n as usize])?;
        self.log.push(Move::Took(conn, len, taken))?;
        self.rooms.take(conn, n);
        Ok(Some(n))
    }

    fn put_shut(&mut self, conn: u32) -> Result<(), NoMemory>
        ensures ok { OnOk result (self.new ≡ record self.old { log = self.old.log ++ move.Shut conn ∷ [] }) }
        ensures no_memory { OnErr result (self.new ≡ self.old) }
    {
        self.log.push(Move::Shut(conn))?;
        Ok(())
    }

    // What it is started with.
    fn note(&mut self, listen: &str, name: &str, first: &[u8]) -> Result<(), NoMemory>
        ensures ok { OnOk result (self.new ≡ record self.old {
          starts = self.old.starts ++ record { listen = listen.now; name = name.now; first = first.now } ∷ [];
        }) }
        ensures no_memory { OnErr result (self.new ≡ self.old) }
    {
        let listen = Octets::copy_of(self.alloc, listen.as_bytes())?;
        let name = Octets::copy_of(self.alloc, name.as_bytes())?;
        let first = Octets::copy_of(self.alloc, first)?;
        let start = Listening {
            listen,
            name,
            first,
        };
        self.starts.push(self.alloc, start)?;
        Ok(())
    }
}

impl Wire for ScriptWire {
    ghost use Rattle.std.specs.Prelude.{List};
    ghost use Rattle.spec_machine.specs.ScriptLine.{ScriptLine as LineOf};
    ghost use Rattle.replay_script.specs.ScriptWire.{state_of_played};

    ghost state = { state_of_played };

    ghost Kept = { List LineOf };

    ghost kept = { λ w. w.lines };

    fn faults(&self) -> u64 {
        self.faults
    }

    fn stops(&self) -> u64 {
        0
    }

    fn start(&mut self, listen: &str, name: &str, first: &[u8]) -> Started {
        match self.note(listen, name, first) {
            Ok(()) => Started::Ready,
            Err(NoMemory) => {
                self.want();
                Started::Memory
            }
        }
    }

    fn next(&mut self) -> Next {
        match self.give() {
            Ok(Some(event)) => Next::Event(event),
            Ok(None) => Next::End,
            Err(NoMemory) => {
                self.want();
                Next::Memory
            }
        }
    }

    fn offer(&mut self, conn: u32, bytes: &[u8]) -> Offer {
        match self.put_offer(conn, bytes) {
            Ok(Some(n)) => Offer::Took(n),
            Ok(None) => Offer::Failed,
            Err(NoMemory) => {
                self.want();
                Offer::Memory
            }
        }
    }

    fn shut(&mut self, conn: u32) -> Shut {
        match self.put_shut(conn) {
            Ok(()) => Shut::Done,
            Err(NoMemory) => {
                self.want();
                Shut::Memory
            }
        }
    }
}

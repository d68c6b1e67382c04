//! What is told of a wire: the lines of the log, the state for systemd, the status file.

use crate::counts::Counts;
use crate::guest::Guest;
use crate::guests::Guests;
use crate::judge::Judge;
use crate::line::{Level, put_line};
use crate::noticeboard::Noticeboard;
use crate::plant::Plant;
use crate::posted::{Reloaded, SaveTold};
use crate::reading_health::ReadingHealth;
use crate::reminder::Reminder;
use crate::ring::Ring;
use crate::spoken::Spoken;
use crate::status_text::{Beside, text_of};
use crate::store_health::StoreHealth;
use crate::told::{
    closed_line, forgotten_line, lost_line, no_route_line, opened_line, refused_line, shut_line,
    speaks_line,
};
use crate::told_plant as plant_lines;
use ads_outside::Event;
use daemon_outside::{Beacon, LogOutlet, Onlooker, PeerNames, StopCause};
use std::alloc::{AllocError, Global};
use std::io;

/// Ticks in a second, and in ten.
const SECOND_TICKS: u64 = 100;

const STATUS_TICKS: u64 = 1_000;

/// Ticks between two lines that nothing is saved.
const HELD_TICKS: u64 = 6_000;

/// Ticks in a minute, and in ten.
const MINUTE_TICKS: u64 = 6_000;

const TEN_MINUTES_TICKS: u64 = 60_000;

/// How many refused peers a wire remembers.
const NAMED: u64 = 16;

/// Looks on, and writes the log: a line for what began and ended, who spoke, what was reloaded and saved. It tells a beacon
/// that it is ready and alive, and a file its counts. Nothing of it waits.
#[derive(Drop)]
pub struct Chronicle<
    N: Drop,
    J: Judge + Drop,
    L: LogOutlet + Drop,
    B: Beacon + Drop,
    F: Beacon + Drop,
> {
    alloc: Global,
    // A date stands before a line, and not a level.
    dated: bool,
    names: N,
    judge: J,
    board: Noticeboard,
    outlet: L,
    beacon: B,
    file: F,
    ring: Ring,
    // Of the lost lines so many were told, and of the refused peers.
    told_lost: u64,
    told_refused: u64,
    ready: bool,
    health: StoreHealth,
    readings: ReadingHealth,
    // The status file, descriptors, and the description that is served in the place of one that was refused, with its line.
    status: Reminder,
    descriptors: Reminder,
    without: u64,
    standing_in: Option<String>,
    refused: Reminder,
    plant: Plant,
    guests: Guests,
    counts: Counts,
}

impl<N: Drop, J: Judge + Drop, L: LogOutlet + Drop, B: Beacon + Drop, F: Beacon + Drop> Chronicle<
    N,
    J,
    L,
    B,
    F,
> {
    /// Nothing was told; it is this moment. What is posted on the board is told too.
    pub fn new(
        alloc: Global,
        now: u64,
        dated: bool,
        names: N,
        judge: J,
        board: Noticeboard,
        outlet: L,
        beacon: B,
        file: F,
    ) -> Self {
        Chronicle {
            alloc,
            dated,
            names,
            judge,
            board,
            outlet,
            beacon,
            file,
            ring: Ring::new(alloc),
            told_lost: 0,
            told_refused: 0,
            ready: false,
            health: StoreHealth::Well,
            readings: ReadingHealth::Well,
            status: Reminder::new(),
            descriptors: Reminder::new(),
            without: 0,
            standing_in: None,
            refused: Reminder::new(),
            plant: Plant::new(alloc),
            guests: Guests::new(alloc),
            counts: Counts::new(now),
        }
    }

    /// Where the log goes.
    pub fn outlet(&self) -> &L {
        &self.outlet
    }

    /// The description that was to be served breaks this rule, and in it this item; rule 0 for no TOML document.
    pub fn refused(&mut self, rule: u8, item: u32) {
        let text = plant_lines::refused_line(self.alloc, rule, item);
        self.put_made(Level::Error, text);
    }

    /// A line that something is not as it should be.
    pub fn warn(&mut self, text: &str) {
        self.put(Level::Warning, text);
    }

    /// A line that something fails.
    pub fn complain(&mut self, text: &str) {
        self.put(Level::Error, text);
    }

    /// The description that was kept in this file is served, since the named one breaks this rule, or can't be read. It is told now
    /// and each minute, till a description is accepted.
    pub fn stands_in(&mut self, kept: &str, rule: Option<(u8, u32)>) {
        match plant_lines::kept_line(self.alloc, kept, rule) {
            Ok(text) => {
                self.standing_in = Some(text);
                self.tell_standing_in();
            }
            Err(_) => self.ring.lose(),
        }
    }

    // That another description is served than the named one, where it is due.
    fn tell_standing_in(&mut self) {
        let Some(text) = self.standing_in.take() else {
            return;
        };
        if self.refused.is_due(self.counts.ticks, MINUTE_TICKS) {
            self.put(Level::Error, text.as_str());
        }
        self.standing_in = Some(text);
    }

    // A description was accepted: it is kept, where descriptions are.
    fn keep_description(&mut self) {
        if self.plant.text().is_empty() {
            return;
        }
        if let Err(error) = self.judge.keep(self.plant.text()) {
            let text = plant_lines::unkept_line(self.alloc, &error);
            self.put_made(Level::Error, text);
        }
    }

    /// What each machine without a route may do.
    pub fn lets_others_in(&mut self, right: &str) {
        let text = format!(in self.alloc; "other_routes {right}");
        self.put_made(Level::Notice, text);
    }

    /// The store in this file has so many entries, of so many bytes.
    pub fn store_opened(&mut self, name: &str, entries: u64, bytes: u64) {
        let text = plant_lines::store_line(self.alloc, name, entries, bytes);
        self.put_made(Level::Info, text);
    }

    /// The run is over: what waits is given to the outlet, as far as it takes it at once.
    pub fn finish(&mut self) {
        self.look();
        self.file_counts();
        for _ in 0..32u32 {
            if self.ring.flush(&mut self.outlet) == 0 {
                return;
            }
        }
    }

    // A line is told.
    fn put(&mut self, level: Level, text: &str) {
        put_line(
            self.alloc,
            &mut self.ring,
            self.dated,
            self.counts.now,
            level,
            text,
        );
    }

    // A line is told, if there was memory for its text.
    fn put_made(&mut self, level: Level, text: Result<String, AllocError>) {
        match text {
            Ok(text) => self.put(level, text.as_str()),
            Err(_) => self.ring.lose(),
        }
    }

    // What the server and its store posted is told.
    fn look(&mut self) {
        let posted = self.board.take();
        self.counts.served = posted.served;
        self.counts.saves = posted.saves;
        self.counts.store_faults = posted.faults;
        if let Some(reload) = posted.reload {
            self.tell_reload(reload);
        }
        if self.counts.held && !posted.held {
            // The log said that saves go on: a fault behind that is a new one.
            self.health = StoreHealth::Well;
        }
        self.counts.held = posted.held;
        if posted.has_lines {
            self.tell_store();
        }
        if let Some(save) = posted.save {
            self.tell_save(save);
        }
    }

    // What the store's file told.
    fn tell_store(&mut self) {
        let mut told = self.board.lines_in_hand();
        for line in told.lines.as_slice() {
            self.put(line.level, line.text.as_str());
        }
        told.lines.clear();
        self.board.give_back(told);
    }

    // Why nothing is saved, each minute.
    fn tell_held(&mut self) {
        if !self.counts.held || self.counts.ticks % HELD_TICKS != 0 {
            return;
        }
        let told = self.board.lines_in_hand();
        if let Some(why) = &told.held {
            self.put(Level::Error, why.as_str());
        }
        self.board.give_back(told);
    }

    // What became of a changed description.
    fn tell_reload(&mut self, reload: Reloaded) {
        let text = plant_lines::reload_line(self.alloc, reload);
        match reload {
            Reloaded::Accepted(_) => {
                self.counts.reloads = self.counts.reloads.saturating_add(1);
                self.put_made(Level::Info, text);
                self.plant.accept(self.alloc);
                self.standing_in = None;
                self.keep_description();
            }
            Reloaded::Syntax | Reloaded::Breaks(_, _) => {
                self.counts.refusals = self.counts.refusals.saturating_add(1);
                self.put_made(Level::Warning, text);
            }
        }
    }

    // What became of a body: each save, and a failure where the look before was none of its kind.
    fn tell_save(&mut self, save: SaveTold) {
        let health = StoreHealth::of_save(save);
        if health != self.health {
            self.health = health;
            self.put(level_of(health), health.text());
        }
        if let SaveTold::Saved(bytes, moment) = save {
            self.counts.save(moment);
            let text = plant_lines::saved_line(
                self.alloc,
                self.counts.saves,
                bytes,
                self.counts.save_time,
            );
            self.put_made(Level::Info, text);
        }
    }

    // Lines that were lost are told, once there is room again.
    fn tell_lost(&mut self) {
        let lost = self.ring.lost();
        if lost != self.told_lost && self.ring.waiting() < 32_768 {
            let lines = lost.saturating_sub(self.told_lost);
            self.told_lost = lost;
            let text = format!(in self.alloc; "log: {lines} lines lost");
            self.put_made(Level::Warning, text);
        }
    }

    // A tick: what is due by time.
    fn tick(&mut self, moment: u64) {
        self.counts.tick(moment);
        if !self.ready {
            self.ready = true;
            let _ = self.beacon.tell(b"READY=1\nSTATUS=serving");
            self.file_counts();
        }
        if self.counts.ticks % SECOND_TICKS == 0 {
            let _ = self.beacon.tell(b"WATCHDOG=1");
        }
        if self.counts.ticks % STATUS_TICKS == 0 {
            self.file_counts();
        }
        self.tell_held();
        self.tell_standing_in();
        self.tell_lost();
        let _ = self.ring.flush(&mut self.outlet);
    }

    // The counts are told to the file.
    fn file_counts(&mut self) {
        let beside = Beside {
            there: self.guests.len() as u64,
            refused: self.told_refused,
            lost: self.ring.lost(),
        };
        if let Ok(text) = text_of(self.alloc, &self.counts, beside) {
            let told = self.file.tell(text.as_bytes());
            self.tell_status(told);
        }
    }

    // It is told where the status file can't be written, at once and each ten minutes, and where it is written again.
    fn tell_status(&mut self, told: io::Result<()>) {
        match told {
            Ok(()) => {
                if self.status.is_over() {
                    self.put(Level::Notice, plant_lines::STATUS_WELL);
                }
            }
            Err(error) => {
                if self.status.is_due(self.counts.ticks, TEN_MINUTES_TICKS) {
                    let text = plant_lines::status_line(self.alloc, &error);
                    self.put_made(Level::Warning, text);
                }
            }
        }
    }

    fn hear(&mut self, conn: u32, bytes: &[u8]) {
        self.counts.hear(bytes.len() as u64);
        if let Some(guest) = self.guests.hear(conn, bytes) {
            let text = speaks_line(self.alloc, &guest);
            self.put_made(Level::Info, text);
            self.tell_route(&guest);
        }
    }

    // Who speaks without rights is told, and what lets it in.
    fn tell_route(&mut self, guest: &Guest) {
        if let Spoken::As(net, _) = guest.spoken {
            if !self.has_rights(guest) {
                let text = no_route_line(self.alloc, guest.conn, net);
                self.put_made(Level::Warning, text);
            }
        }
    }

    fn has_rights(&mut self, guest: &Guest) -> bool {
        self.plant.has_rights(self.alloc, &self.judge, guest.spoken)
    }

    fn close(&mut self, conn: u32) {
        if let Some(guest) = self.guests.remove(conn) {
            let text = closed_line(self.alloc, &guest, self.counts.now);
            self.put_made(Level::Info, text);
        }
    }

    // Why the server shut a connection, as far as that is known.
    fn why(&mut self, guest: &Guest) -> &'static str {
        if !guest.speaks_ads() {
            return "what came is no AMS/TCP";
        }
        if !self.has_rights(guest) {
            return "its NetId has no route";
        }
        "a frame that came breaks the protocol, or too much waits for it"
    }

    // The plant that is served first.
    fn first(&mut self, listen: &str, name: &str, bytes: &[u8]) {
        self.plant.hear(self.alloc, bytes);
        self.plant.accept(self.alloc);
        self.keep_description();
        let len = bytes.len();
        let text = format!(in self.alloc; "listening at {listen}, {name}, {len} bytes");
        self.put_made(Level::Info, text);
        let _ = self.ring.flush(&mut self.outlet);
    }

    // Peers that were refused are told, the last ones by their addresses.
    fn tell_refused<W>(&mut self, wire: &W)
    where
        N: PeerNames<W>,
    {
        let refused = self.names.refused(wire);
        let first = self.told_refused.max(refused.saturating_sub(NAMED));
        let forgotten = first.saturating_sub(self.told_refused);
        self.told_refused = refused;
        if forgotten != 0 {
            let text = forgotten_line(self.alloc, forgotten);
            self.put_made(Level::Notice, text);
        }
        for n in first..refused {
            if let Some(peer) = self.names.refused_peer(wire, n) {
                let text = refused_line(self.alloc, peer);
                self.put_made(Level::Notice, text);
            }
        }
    }

    // Once a second the wire is asked what it knows beside its events.
    fn ask_wire<W>(&mut self, wire: &W)
    where
        N: PeerNames<W>,
    {
        if self.counts.ticks % SECOND_TICKS == 0 {
            self.tell_refused(wire);
            let failed = self.names.failed_readings(wire);
            self.tell_readings(failed);
            let without = self.names.without_descriptor(wire);
            self.tell_descriptors(without);
        }
    }

    // Once a minute it is told that nobody could be accepted for want of a descriptor.
    fn tell_descriptors(&mut self, without: u64) {
        let more = without != self.without;
        self.without = without;
        if more && self.descriptors.is_due(self.counts.ticks, MINUTE_TICKS) {
            self.put(Level::Warning, plant_lines::NO_DESCRIPTOR);
        }
    }

    // It is told where readings of the description begin to fail, and where they go well again.
    fn tell_readings(&mut self, failed: u64) {
        let before = self.readings;
        self.readings = before.after_look(failed != self.counts.failed_readings);
        self.counts.failed_readings = failed;
        match (before, self.readings) {
            (ReadingHealth::Well, ReadingHealth::Failed) => self.put(
                Level::Warning,
                plant_lines::UNREADABLE,
            ),
            (ReadingHealth::Quiet, ReadingHealth::Well) => self.put(
                Level::Notice,
                plant_lines::READABLE,
            ),
            _ => {}
        }
    }

    fn open<W>(&mut self, conn: u32, wire: &W)
    where
        N: PeerNames<W>,
    {
        let peer = self.names.peer_of(wire, conn);
        self.counts.connections = self.counts.connections.saturating_add(1);
        self.guests.add(Guest::new(conn, peer, self.counts.now));
        let text = opened_line(self.alloc, conn, peer);
        self.put_made(Level::Info, text);
    }
}

// How much it weighs that the store comes to that.
fn level_of(health: StoreHealth) -> Level {
    match health {
        StoreHealth::Well => Level::Notice,
        StoreHealth::NoMemory => Level::Warning,
        StoreHealth::Failed | StoreHealth::OverLimit => Level::Error,
    }
}

impl<
    W,
    N: PeerNames<W> + Drop,
    J: Judge + Drop,
    L: LogOutlet + Drop,
    B: Beacon + Drop,
    F: Beacon + Drop,
> Onlooker<W> for Chronicle<N, J, L, B, F> {
    ghost seen = { λ _ _. Unit {0} };

    fn listens(&mut self, listen: &str, name: &str, first: &[u8]) {
        self.first(listen, name, first);
    }

    fn cannot_listen(&mut self, listen: &str) {
        let text = format!(in self.alloc; "cannot listen at {listen}");
        self.put_made(Level::Error, text);
    }

    fn saw(&mut self, event: &Event, wire: &W) {
        self.look();
        match event {
            Event::Opened(conn) => self.open(*conn, wire),
            Event::Piece(conn, bytes) => self.hear(*conn, bytes.as_slice()),
            Event::Closed(conn) => self.close(*conn),
            Event::Tick(moment) => {
                self.tick(*moment);
                self.ask_wire(wire);
            }
            Event::Reload(bytes) => self.plant.hear(self.alloc, bytes.as_slice()),
            Event::Writable(_) => {}
        }
    }

    fn offered(&mut self, conn: u32, bytes: &[u8], taken: u32) {
        self.counts.give(taken, bytes.len() as u64);
        self.guests.give(conn, taken);
    }

    fn lost(&mut self, conn: u32) {
        if let Some(guest) = self.guests.remove(conn) {
            let text = lost_line(self.alloc, &guest, self.counts.now);
            self.put_made(Level::Info, text);
        }
    }

    fn shut(&mut self, conn: u32) {
        // A description that was just taken in counts.
        self.look();
        if let Some(guest) = self.guests.remove(conn) {
            let why = self.why(&guest);
            let text = shut_line(self.alloc, &guest, self.counts.now, why);
            self.put_made(Level::Notice, text);
        }
    }

    fn stops(&mut self, cause: StopCause) {
        self.look();
        let _ = self.beacon.tell(b"STOPPING=1\nSTATUS=stopping");
        let text = match cause {
            StopCause::Terminate => "stopping: SIGTERM",
            StopCause::Interrupt => "stopping: SIGINT",
            StopCause::File => "stopping: the stop file is there",
        };
        self.put(Level::Info, text);
    }

    fn ended(&mut self) {
        self.look();
        self.put(Level::Info, "stopping: there are no more events");
    }

    fn failed(&mut self) {
        self.look();
        self.put(
            Level::Error,
            "stopping: the system's poll or clock failed, or all numbers of connections are used up",
        );
    }

    fn lacked_memory(&mut self) {
        self.put(Level::Error, "out of memory");
    }
}

//! What a daemon counts.

use crate::posted::Served;

/// The time between two ticks, in 100 ns.
const BEAT: u64 = 100_000;

/// Counts since the start, each of which stands still at its type's end, and moments in 100 ns since 1601.
#[derive(Clone, Copy, Debug)]
pub(crate) struct Counts {
    pub(crate) start: u64,
    pub(crate) now: u64,
    pub(crate) ticks: u64,
    pub(crate) missed: u64,
    /// The longest time by which a tick was late.
    pub(crate) late: u64,
    pub(crate) connections: u64,
    pub(crate) bytes_in: u64,
    pub(crate) bytes_out: u64,
    pub(crate) short: u64,
    pub(crate) reloads: u64,
    pub(crate) refusals: u64,
    pub(crate) served: Served,
    pub(crate) saves: u64,
    pub(crate) store_faults: u64,
    /// The moment of the last save, and how long it took from its tick.
    pub(crate) saved: u64,
    pub(crate) save_time: u64,
    pub(crate) failed_readings: u64,
    /// Nothing is saved.
    pub(crate) held: bool,
}

impl Counts {
    /// Nothing was counted; it is this moment.
    pub(crate) fn new(now: u64) -> Counts {
        Counts {
            start: now,
            now,
            ticks: 0,
            missed: 0,
            late: 0,
            connections: 0,
            bytes_in: 0,
            bytes_out: 0,
            short: 0,
            reloads: 0,
            refusals: 0,
            served: Served {
                requests: 0,
                replies: 0,
                samples: 0,
            },
            saves: 0,
            store_faults: 0,
            saved: 0,
            save_time: 0,
            failed_readings: 0,
            held: false,
        }
    }

    /// A tick came. The beats that lie between it and the last one were missed.
    pub(crate) fn tick(&mut self, moment: u64) {
        if self.ticks != 0 {
            let gap = moment.saturating_sub(self.now);
            self.missed = self.missed.saturating_add((gap / BEAT).saturating_sub(1));
            self.late = self.late.max(gap.saturating_sub(BEAT));
        }
        self.now = self.now.max(moment);
        self.ticks = self.ticks.saturating_add(1);
    }

    /// So many bytes came.
    pub(crate) fn hear(&mut self, n: u64) {
        self.bytes_in = self.bytes_in.saturating_add(n);
    }

    /// So many bytes were taken of so many that were offered.
    pub(crate) fn give(&mut self, n: u32, offered: u64) {
        self.bytes_out = self.bytes_out.saturating_add(u64::from(n));
        if u64::from(n) < offered {
            self.short = self.short.saturating_add(1);
        }
    }

    /// A save was done, and this was the moment behind it.
    pub(crate) fn save(&mut self, moment: u64) {
        self.saved = moment;
        self.save_time = moment.saturating_sub(self.now);
    }
}

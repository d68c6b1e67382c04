//! A line of a log.

use crate::date::date_of;
use crate::ring::Ring;
use ads_base::{NoMemory, Octets};
use std::alloc::Global;

/// How much a line weighs, as syslog numbers it.
#[derive(Clone, Copy, Debug, PartialEq, Eq)]
pub enum Level {
    /// The daemon ends, or can't save.
    Error,
    /// What somebody should look at.
    Warning,
    Notice,
    Info,
}

impl Level {
    fn number(self) -> u8 {
        match self {
            Level::Error => 3,
            Level::Warning => 4,
            Level::Notice => 5,
            Level::Info => 6,
        }
    }
}

/// Tells a line to a ring, with the date of a moment or with its level in front.
pub(crate) fn put_line(
    alloc: Global,
    ring: &mut Ring,
    dated: bool,
    now: u64,
    level: Level,
    text: &str,
) {
    match line_of(alloc, dated, now, level, text) {
        Ok(line) => ring.put(line.as_slice()),
        Err(NoMemory) => ring.lose(),
    }
}

fn line_of(
    alloc: Global,
    dated: bool,
    now: u64,
    level: Level,
    text: &str,
) -> Result<Octets, NoMemory> {
    let mut line = Octets::new(alloc);
    if dated {
        put_date(alloc, &mut line, now)?;
    } else {
        let number = level.number();
        let front = format!(in alloc; "<{number}>")?;
        line.put(alloc, front.as_bytes())?;
    }
    line.put(alloc, text.as_bytes())?;
    line.push(alloc, b'\n')?;
    Ok(line)
}

fn put_date(alloc: Global, line: &mut Octets, now: u64) -> Result<(), NoMemory> {
    let date = date_of(now);
    let (year, month, day) = (date.year, date.month, date.day);
    let text = format!(in alloc; "{year:04}-{month:02}-{day:02} ")?;
    line.put(alloc, text.as_bytes())?;
    let (hour, minute, second) = (date.hour, date.minute, date.second);
    let text = format!(in alloc; "{hour:02}:{minute:02}:{second:02} ")?;
    line.put(alloc, text.as_bytes())
}

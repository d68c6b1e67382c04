//! The moment of the system's wall clock.

use std::time::{Clock, SystemTime};

/// How many times 100 ns lie between 1 January 1601 and 1 January 1970.
const BEFORE_1970: u64 = 116_444_736_000_000_000;

/// This moment in 100 ns since 1 January 1601; 0 where the clock fails.
pub fn moment_now<C: Clock>(clock: &C) -> u64 {
    let Ok(now) = SystemTime::now(clock) else {
        return 0;
    };
    match now.duration_since(SystemTime::UNIX_EPOCH) {
        Ok(since) => u64::try_from(since.as_nanos() / 100)
            .unwrap_or(0)
            .saturating_add(BEFORE_1970),
        Err(_) => 0,
    }
}

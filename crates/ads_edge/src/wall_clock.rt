//! The wall clock.

ghost use Rattle.std.specs.Prelude.{◌≡◌, ◌+◌, ◌/◌, ◌<◌, ◌^◌, IsSome, IfSome, ◌↔◌};
ghost use Rattle.std.specs.Duration.{as_nanos};

use std::time::{Clock, Duration, SystemTime};

/// How many times 100 ns lie between 1 January 1601 and 1 January 1970.
const BEFORE_1970: u64 = 116_444_736_000_000_000;

/// This moment in 100 ns since 1 January 1601; None where the system's clock fails.
pub(crate) fn moment<C: Clock>(clock: &C) -> Option<u64> {
    let since = SystemTime::now(clock)
        .ok()?
        .duration_since(SystemTime::UNIX_EPOCH)
        .ok()?;
    moment_of(since)
}

// The moment so long after 1970; None past its type's end.
fn moment_of(since: Duration) -> Option<u64>
    ensures fits { IsSome result ↔ (as_nanos since / 100 + BEFORE_1970 < 2 ^ 64) }
    ensures moment { IfSome result (λ moment. moment ≡ as_nanos since / 100 + BEFORE_1970) }
{
    u64::try_from(since.as_nanos() / 100)
        .ok()?
        .checked_add(BEFORE_1970)
}

//! What a description's file was found to hold.

ghost use Rattle.std.specs.Prelude.{◌≡◌, ◌-◌, ◌*◌, nat_le, Some};
ghost use Rattle.std.specs.Time.{instant_nanos};
ghost use Rattle.ads_edge.specs.Settled.{was_found};

use ads_base::Octets;
use std::time::Instant;

/// Bytes that a file holds at each reading since this time.
#[derive(Drop)]
pub(crate) struct Found {
    pub(crate) bytes: Octets,
    pub(crate) since: Instant,
}

impl Found {
    /// Whether it is these bytes, and so many seconds have passed since.
    pub(crate) fn is_old(&self, bytes: &[u8], settle: u32, now: Instant) -> bool
        ensures { result ≡ was_found settle (instant_nanos now) bytes.now (Some self.now) }
    {
        self.bytes.as_slice() == bytes && self.has_age(settle, now)
    }

    fn has_age(&self, settle: u32, now: Instant) -> bool
        ensures { result ≡ nat_le (settle * 1_000_000_000) (instant_nanos now - instant_nanos self.now.since) }
    {
        u128::from(settle) * 1_000_000_000 <= now.duration_since(self.since).as_nanos()
    }
}

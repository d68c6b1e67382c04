//! Places in a wave that repeats.
ghost use Rattle.std.specs.Prelude.{◌≡◌, ◌<◌};
ghost use Rattle.signals.specs.Wave.{place_after};

// The place after a place, from the end to 0.
pub(crate) fn place_after(place: u64, count: u64) -> u64
    requires { place < count }
    ensures { result ≡ place_after place count }
{
    if place + 1 < count { place + 1 } else { 0 }
}

//! A signal that counts up.
ghost use Rattle.std.specs.Prelude.{◌≡◌, ◌≢◌, ◌<◌};
ghost use Rattle.std.specs.List.{range_with_len};

use crate::place::place_after;
use crate::signal::Signal;

/// The numbers from 0 on, as many as its length, again and again.
#[derive(Drop)]
pub struct Ramp {
    len: u32,
    place: u32,
    ghost within: { place < len },
}

impl Ramp {
    /// A ramp at its beginning.
    pub fn new(len: u32) -> Ramp
        requires { len ≢ 0 }
        ensures { ⟦<Ramp as Signal>⟧.wave result ≡ record { values = range_with_len 0 len; place = 0 } }
    {
        Ramp { len, place: 0 }
    }
}

impl Signal for Ramp {
    ghost use Rattle.std.proofs.Common.{subst, sym};
    ghost use Rattle.std.proofs.lemmas.List.FromFn.{length-range_with_len};

    ghost wave = { λ r. record { values = range_with_len 0 r.len; place = r.place } };

    ghost is_wave = { λ r. subst (λ count. r.place < count) (sym (length-range_with_len 0 r.len)) r.within };

    fn step(&mut self) -> u64 {
        let value = u64::from(self.place);
        self.place = place_after(value, u64::from(self.len)) as u32;
        value
    }
}

//! A signal whose values are listed.

ghost use Rattle.std.specs.Prelude.{◌≡◌, ◌<◌, length};

use ads_base::ListOf;
use signals::Signal;

/// Values from a list of any length, one a tick, again and again.
#[derive(Drop)]
pub struct Played {
    values: ListOf<u64>,
    place: usize,
    ghost within: { place < length values },
}

impl Played {
    /// A signal with these values, at the first.
    pub fn new(values: ListOf<u64>) -> Played
        requires { 0 < length values }
        ensures { ⟦<Played as Signal>⟧.wave result ≡ record { values = values; place = 0 } }
    {
        Played { values, place: 0 }
    }
}

impl Signal for Played {
    ghost wave = { λ p. record { values = p.values; place = p.place } };

    ghost is_wave = { λ p. p.within };

    fn step(&mut self) -> u64 {
        let value = self.values.as_slice()[self.place];
        let next = self.place + 1;
        self.place = if next < self.values.len() { next } else { 0 };
        value
    }
}

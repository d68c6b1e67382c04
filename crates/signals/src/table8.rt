//! A signal whose values are listed.
ghost use Rattle.std.specs.Prelude.{◌≡◌, ◌<◌, length, IfOk};

use crate::place::place_after;
use crate::signal::Signal;
use ads_base::NoMemory;
use std::alloc::Global;

/// Values of eight bytes each from a list, again and again.
#[derive(Drop)]
pub struct Table8 {
    values: Vec<u64>,
    place: usize,
    ghost within: { place < length values.items },
}

impl Table8 {
    /// A signal with these values, at the first.
    pub fn new(alloc: Global, values: &[u64]) -> Result<Table8, NoMemory>
        requires { 0 < length values.now }
        ensures { IfOk result (λ t. ⟦<Table8 as Signal>⟧.wave t ≡ record { values = values.now; place = 0 }) }
    {
        let values = values.to_vec(alloc)?;
        Ok(Table8 { values, place: 0 })
    }
}

impl Signal for Table8 {
    ghost wave = { λ t. record { values = t.values.items; place = t.place } };

    ghost is_wave = { λ t. t.within };

    fn step(&mut self) -> u64 {
        let value = self.values[self.place];
        self.place = place_after(self.place as u64, self.values.len() as u64) as usize;
        value
    }
}

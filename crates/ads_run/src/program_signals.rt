//! The signals that the program has.

ghost use Rattle.std.specs.Prelude.{◌≡◌, [], ◌∷◌, IfOk};
ghost use Rattle.ads_run.specs.ProgramWaves.{program_waves};

use ads_base::NoMemory;
use signals::{Ramp, Signal, Square, Table8};
use std::alloc::Global;

/// The signals that a description of the program may name by 0, 1 and 2: a ramp of 1,000 values, a square of ten 0
/// and ten 1, and a table of eight values.
#[derive(Drop)]
pub struct ProgramSignals {
    pub ramp: Ramp,
    pub square: Square,
    pub table: Table8,
}

impl ProgramSignals {
    /// The three signals, each at its beginning.
    pub fn new(alloc: Global) -> Result<ProgramSignals, NoMemory>
        ensures { IfOk result (λ s. ⟦<Ramp as Signal>⟧.wave s.ramp ∷ ⟦<Square as Signal>⟧.wave s.square
            ∷ ⟦<Table8 as Signal>⟧.wave s.table ∷ [] ≡ program_waves) }
    {
        Ok(ProgramSignals {
            ramp: Ramp::new(1000),
            square: Square::new(0, 1, 10),
            table: Table8::new(alloc, &[3, 1, 4, 1, 5, 9, 2, 6])?,
        })
    }
}

//! A source of values: a wave that repeats, and a place in it.
ghost use Rattle.std.specs.Prelude.{◌≡◌};
ghost use Rattle.signals.specs.Wave.{Wave, IsWave, value_of, wave_after_step};

/// A source that answers one value a step. Who calls it knows its wave and its place, and no more.
pub trait Signal: Drop {
    ghost wave: { Self → Wave };

    /// The value at the place. The place then moves on by one, from the end to the beginning.
    fn step(&mut self) -> u64
        ensures value { result ≡ value_of (wave self.old) }
        ensures moved { wave self.new ≡ wave_after_step (wave self.old) };

    ghost is_wave: { (s : Self) → IsWave (wave s) };
}

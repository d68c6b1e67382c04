//! What holds of every signal that plays a list.

ghost use Rattle.std.specs.Prelude.{◌≡◌, ◌<◌, ◌%◌, ℕ, List, length, slice_index};
ghost use Rattle.signals.specs.Wave.{value_of};
ghost use Rattle.daemon_signals.specs.Values.{wave_of, wave_after};

/// The value at tick t, counted from 0, is the list's element t modulo its length.
pub fn values_come_round()
    ensures { (values : List ℕ) (t : ℕ) → 0 < length values → value_of (wave_after t (wave_of values)) ≡ slice_index values (t % length values) }
{}

//! The signals that a device is given, each stepped once a tick.
ghost use Rattle.std.specs.Prelude.{◌≡◌, ◌<◌, ◌^◌, length, map, slice_get, Some};
ghost use Rattle.signals.specs.Wave.{value_of, wave_after_step, waves_after_step};

use crate::signal::Signal;

/// Signals that the caller made, numbered from 0.
#[derive(Drop)]
pub struct Bank {
    pub signals: Vec<Box<dyn Signal>>,
    ghost counted: { length signals.items < 2 ^ 32 },
}

impl Bank {
    ghost use Rattle.signals.specs.Bank.{waves_of};

    /// A bank of these signals, each at the place that it has.
    pub fn new(list: Vec<Box<dyn Signal>>) -> Bank
        requires { length list.items < 2 ^ 32 }
        ensures { waves_of wave result ≡ map wave list.items }
    {
        Bank { signals: list }
    }

    /// How many signals there are.
    pub fn count(&self) -> u32
        ensures { result ≡ length (waves_of wave self.now) }
    {
        self.signals.len() as u32
    }

    /// Steps one signal, and leaves the others.
    pub fn step(&mut self, n: u32) -> u64
        requires { n < length (waves_of wave self.old) }
        ensures value { slice_get (map value_of (waves_of wave self.old)) n ≡ Some result }
        ensures moved { waves_of wave self.new ≡ waves_after_step n (waves_of wave self.old) }
    {
        step_one(&mut self.signals[n as usize])
    }
}

// One step of one signal.
fn step_one(signal: &mut Box<dyn Signal>) -> u64
    ensures value { result ≡ value_of (wave signal.old) }
    ensures moved { wave signal.new ≡ wave_after_step (wave signal.old) }
{
    signal.step()
}

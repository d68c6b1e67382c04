//! Standard output.

ghost use Rattle.std.specs.Prelude.{◌≡◌, None};

use ads_outside::{Put, Sink};
use std::io::{self, Write};

/// Standard output, flushed after each piece. What it holds is not told; nothing is written to standard error.
#[derive(Drop)]
pub struct RealSink<'a, R: Print> {
    rt: &'a R,
    faults: u64,
}

impl<'a, R: Print> RealSink<'a, R> {
    /// The standard output of this runtime.
    pub fn new(rt: &'a R) -> RealSink<'a, R> {
        RealSink { rt, faults: 0 }
    }
}

impl<R: Print> Sink for RealSink<'_, R> {
    ghost use Rattle.std.specs.Prelude.{None};

    ghost state = { λ s. record { held = None; faults = s.faults; wants = 0 } };

    fn faults(&self) -> u64 {
        self.faults
    }

    fn put(&mut self, bytes: &[u8]) -> Put {
        let mut out = io::writer(self.rt);
        if out.write_all(bytes).is_err() || out.flush().is_err() {
            self.faults = self.faults.saturating_add(1);
            return Put::Failed;
        }
        Put::All
    }
}

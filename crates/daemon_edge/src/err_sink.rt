//! Standard error, for the sentences that end a run.

use ads_outside::{Put, Sink};

/// Standard error. What it holds is not told.
#[derive(Drop)]
pub struct ErrSink {
    faults: u64,
}

impl ErrSink {
    /// The standard error of the process.
    pub fn new() -> ErrSink {
        ErrSink { faults: 0 }
    }
}

impl Sink for ErrSink {
    ghost use Rattle.std.specs.Prelude.{None};

    ghost state = { λ s. record { held = None; faults = s.faults; wants = 0 } };

    fn faults(&self) -> u64 {
        self.faults
    }

    fn put(&mut self, bytes: &[u8]) -> Put {
        if libc::write(libc::STDERR_FILENO, bytes) == bytes.len() as isize {
            return Put::All;
        }
        self.faults = self.faults.saturating_add(1);
        Put::Failed
    }
}

//! A gate that waits for another thread.

use server_core::Gate;
use std::sync::atomic::{AtomicU64, Ordering};

/// How often it is looked whether another thread has come.
const LOOKS: u64 = 100_000_000;

/// A gate at which two threads meet, if they run at once.
#[derive(Drop)]
pub struct Meeting {
    came: AtomicU64,
    met: AtomicU64,
}

impl Meeting {
    pub fn new() -> Meeting {
        Meeting {
            came: AtomicU64::new(0),
            met: AtomicU64::new(0),
        }
    }

    /// How many came.
    pub fn came(&self) -> u64 {
        self.came.load(Ordering::SeqCst)
    }

    /// How many of those who came saw another one there.
    pub fn met(&self) -> u64 {
        self.met.load(Ordering::SeqCst)
    }
}

impl Gate for Meeting {
    // Comes, and waits for another one, but not for ever.
    fn enter(&self) {
        self.came.fetch_add(1, Ordering::SeqCst);
        for _ in 0..LOOKS {
            if self.came.load(Ordering::SeqCst) >= 2 {
                self.met.fetch_add(1, Ordering::SeqCst);
                return;
            }
        }
    }
}

//! An outlet for a log that nobody reads.

use daemon_outside::LogOutlet;

/// Takes everything, and keeps nothing.
#[derive(Drop)]
pub struct NoOutlet;

impl LogOutlet for NoOutlet {
    ghost use Rattle.std.specs.Prelude.{None};

    ghost held = { λ _. None };

    fn take(&mut self, bytes: &[u8]) -> u32 {
        bytes.len() as u32
    }
}

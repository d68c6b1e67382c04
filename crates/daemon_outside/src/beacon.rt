//! Whom a daemon tells its state.

use std::io;

/// Is told the state of a daemon, as `READY=1`.
pub trait Beacon {
    /// Tells a state; what failed where it could not be told.
    fn tell(&mut self, state: &[u8]) -> io::Result<()>;
}

//! What asks a daemon to stop.

/// Why a daemon is asked to stop.
#[derive(Clone, Copy, Debug, PartialEq, Eq)]
pub enum StopCause {
    /// SIGTERM waits for it.
    Terminate,
    /// SIGINT waits for it.
    Interrupt,
    /// The stop file is there.
    File,
}

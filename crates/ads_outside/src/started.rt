//! What starting a wire answers.

/// The answer to a start.
#[derive(Clone, Copy, Debug, PartialEq, Eq)]
pub enum Started {
    /// The wire listens.
    Ready,
    /// It could not be started; a fault and a stop were counted.
    Failed,
    /// Memory was wanting.
    Memory,
}

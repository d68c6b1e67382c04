//! Why a step of a save does not come to its end.

/// Why a step does not come to its end.
#[derive(Clone, Copy)]
pub enum StepFault {
    /// The disk failed.
    Failed,
    /// Memory was wanting.
    Memory,
}

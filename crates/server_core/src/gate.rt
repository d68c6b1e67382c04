//! What is passed before each check.

/// What each check of a session passes before it begins, in whatever thread it runs. It takes no memory, and nothing is promised
/// of it.
pub trait Gate: Sync {
    fn enter(&self);
}

/// A gate that does nothing.
#[derive(Clone, Copy, Debug, PartialEq, Eq)]
pub struct OpenGate;

impl Gate for OpenGate {
    fn enter(&self) {}
}

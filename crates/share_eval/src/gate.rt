//! What each worker passes before it folds.

/// What a worker of a fold calls before it begins, as a test that wants to see workers meet.
pub trait Gate {
    /// Called once by each worker with its number, counted from 0.
    fn enter(&self, piece: u32);
}

/// A gate that does nothing.
#[derive(Clone, Copy, Debug, Default)]
pub struct OpenGate;

impl Gate for OpenGate {
    fn enter(&self, _piece: u32) {}
}

//! What each run of a connection passes first.
use reg_keys::Opening;

/// What each run of a connection passes before it does anything. A test holds a run up with it.
pub trait Gate {
    /// Lets the run of a connection through.
    fn pass(&self, opening: Opening);
}

/// The gate of a server: it is always open.
#[derive(Clone, Copy, Drop)]
pub struct FreeGate;

impl Gate for FreeGate {
    fn pass(&self, _opening: Opening) {}
}

//! What an acquire and a release answer.
use crate::lease::Lease;
use outside::Files;

/// What an acquire answers.
#[derive(Drop)]
pub enum Acquired<F: Files> {
    /// The file stands at the path. The lease goes back by a release.
    Leased(Lease<F>),
    /// No file stands at the path.
    Absent,
    /// The files' count of faults rose.
    Failed,
    /// Memory was short.
    NoMemory,
    /// The cell of the cache takes no more calls. A cache of one's own never answers so.
    Spent,
}

/// What a release answers.
#[derive(Clone, Copy, Debug, PartialEq, Eq)]
pub enum ReleaseOut {
    /// The lease is back.
    Released,
    /// The cell of the cache takes no more calls, and the lease was dropped.
    Spent,
}

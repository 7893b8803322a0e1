//! Waiting for a descriptor by a flag: for a thread that wants an answer where it stands, and not a callback.
//!
//! Its promise: a wait answers `Ready` only after a dispatch ran the wait's own flag, and `Closed` only after
//! its own opening was closed.
#![tactic(auto)]

mod waiting;

pub use waiting::{WaitOut, wait};

#[cfg(test)]
mod tests;

//! What a server that takes connections from outside begins with: a place to listen at, and
//! what its dispatchers work with.
//!
//! The promise: an answer that something failed comes only where a count of the front rose,
//! and what is handed out is unused.
#![tactic(auto)]

mod front;
mod no_front;

pub use front::{Front, KitsOut, ListenOut};
pub use no_front::NoFront;

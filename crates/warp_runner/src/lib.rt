//! Runs the jobs of a server: accepts links, and brings connections on.
#![tactic(auto)]

// The runner, and the codes with which it stops.
mod codes;
mod runner;

// A call on each shared thing, with what it adds to what the dispatcher did.
mod calls;

// A run of a connection.
mod bringing;
mod ending;
mod serving;

// A run of the listener, and the beginning.
mod accepting;
mod starting;

// What isn't the run of a job.
mod noting;
mod sweeping;

pub use codes::{ACCEPT_FAULT, NO_MEMORY, POLL_FAULT, SPENT};
pub use runner::ServerRunner;
pub use serving::Ran;
